// Start positions from their texts to the values of their formulas.

use crate::answers::{FORMULA, lines_behind_head, text_of};
use crate::domains::NONE;
use crate::evaluator::Evaluator;
use std::alloc::Global;
use std::fmt::Write;
use std::process::Abort;
use std::test::Fail;

// The problems' formulas have these values.
fn assert_values(rt: &impl Abort, alloc: Global, cases: &[(&str, bool)]) -> Result<(), Fail> {
    for (problem, value) in cases {
        let text = text_of(rt, alloc, NONE, problem)?;
        let formula = Evaluator::read(alloc, &text)?;
        assert_eq!(rt; formula.value()?, *value, "{problem}");
    }
    Ok(())
}

#[test]
fn the_text_of_a_problem_without_lines(rt: HostRuntime) -> Result<(), Fail> {
    let problem = "#boardsize 1 1 #init () #depth 0 #blackgoals #whitegoals";
    let text = text_of(&rt, rt.alloc(), NONE, problem)?;
    assert_eq!(rt; text.as_slice(), FORMULA);
    assert_eq!(rt; text.len(), 27);
    assert!(rt; !Evaluator::read(rt.alloc(), &text)?.value()?);
    Ok(())
}

#[test]
fn a_stone_that_stands(rt: HostRuntime) -> Result<(), Fail> {
    let cases = [
        (
            "#boardsize 1 1 #init (black(1,1)) #depth 0 #blackgoals (black(1,1)) #whitegoals",
            true,
        ),
        (
            "#boardsize 1 1 #init () #depth 0 #blackgoals (black(1,1)) #whitegoals",
            false,
        ),
        (
            "#boardsize 2 2 #init (black(2,1)) #depth 0 #blackgoals (black(2,1)) #whitegoals",
            true,
        ),
        (
            "#boardsize 2 2 #init (black(2,1)) #depth 0 #blackgoals (black(1,2)) #whitegoals",
            false,
        ),
    ];
    assert_values(&rt, rt.alloc(), &cases)
}

#[test]
fn one_cell_has_one_block(rt: HostRuntime) -> Result<(), Fail> {
    let problem = "#boardsize 1 1 #init (black(1,1)) #depth 0 #blackgoals (black(1,1)) #whitegoals";
    let text = text_of(&rt, rt.alloc(), NONE, problem)?;
    let lines = lines_behind_head(&text)?;
    assert!(rt; lines.starts_with("e 1 2 "));
    assert!(rt; !lines.contains("\ne "));
    assert!(rt; !lines.contains("a "));
    Ok(())
}

#[test]
fn two_cells_have_three_blocks(rt: HostRuntime) -> Result<(), Fail> {
    let problem = "#boardsize 2 1 #init (black(1,1)) #depth 0 #blackgoals (black(1,1)) #whitegoals";
    let text = text_of(&rt, rt.alloc(), NONE, problem)?;
    let lines = lines_behind_head(&text)?;
    assert!(rt; lines.starts_with("e 1 2 0\na 3 0\ne 4 "));
    assert_values(&rt, rt.alloc(), &[(problem, true)])
}

// Black claims its goal, which is the other kind of claim than input 1 names. At the cell of a stone that
// is missing the line fails: the place has to be the other cell.
#[test]
fn two_cells_are_the_kind_and_the_place(rt: HostRuntime) -> Result<(), Fail> {
    let missing: &[u8] =
        b"p cnf 5 5\ne 1 2 0\na 3 0\ne 4 5 0\n4 0\n-5 -1 0\n-5 3 0\n5 1 -3 0\n5 0\n";
    let cases: [(&str, &[u8]); 3] = [
        (
            "black(1,1)",
            b"p cnf 4 2\ne 1 2 0\na 3 0\ne 4 0\n4 0\n-1 0\n",
        ),
        ("white(1,1)", missing),
        ("", missing),
    ];
    for (init, text) in &cases {
        let problem = format!(in rt.alloc();
            "#boardsize 2 1 #init ({init}) #depth 0 #first white #blackgoals (black(1,1)) #whitegoals"
        )?;
        let found = text_of(&rt, rt.alloc(), NONE, &problem)?;
        assert_eq!(rt; found.as_slice(), *text);
    }
    Ok(())
}

#[test]
fn lines_over_several_cells(rt: HostRuntime) -> Result<(), Fail> {
    let cases = [
        (
            "#boardsize 3 1 #init (black(1,1) black(3,1)) #depth 0 #blackgoals (black(3,1) black(1,1)) #whitegoals",
            true,
        ),
        (
            "#boardsize 3 1 #init (black(1,1) black(3,1)) #depth 0 #blackgoals (black(1,1) black(2,1)) #whitegoals",
            false,
        ),
        (
            "#boardsize 1 2 #init (black(1,2)) #depth 0 #blackgoals (black(1,2) black(1,2)) #whitegoals",
            true,
        ),
        (
            "#boardsize 1 2 #init (black(1,2)) #depth 0 #blackgoals (black(1,2) white(1,2)) #whitegoals",
            false,
        ),
    ];
    assert_values(&rt, rt.alloc(), &cases)
}

#[test]
fn one_line_of_several_is_enough(rt: HostRuntime) -> Result<(), Fail> {
    let cases = [
        (
            "#boardsize 2 2 #init (black(2,2)) #depth 0 #blackgoals (black(1,1)) (black(2,2) black(2,1)) (black(2,2)) #whitegoals",
            true,
        ),
        (
            "#boardsize 2 2 #init (black(2,2)) #depth 0 #blackgoals (black(2,2)) (black(1,1)) (black(2,1)) #whitegoals",
            true,
        ),
        (
            "#boardsize 2 2 #init (black(2,2)) #depth 0 #blackgoals (black(1,1)) (black(2,1)) (white(2,2)) #whitegoals",
            false,
        ),
        (
            "#boardsize 1 1 #init () #depth 0 #blackgoals (black(1,1)) (black(1,1)) (white(1,1)) (black(1,1)) (open(1,1)) #whitegoals",
            true,
        ),
    ];
    assert_values(&rt, rt.alloc(), &cases)
}

#[test]
fn a_line_without_atoms_stands(rt: HostRuntime) -> Result<(), Fail> {
    let cases = [
        (
            "#boardsize 1 1 #init () #depth 0 #blackgoals () #whitegoals",
            true,
        ),
        (
            "#boardsize 3 5 #init (white(3,5)) #depth 0 #blackgoals () #whitegoals",
            true,
        ),
        (
            "#boardsize 16 16 #init () #depth 0 #blackgoals () #whitegoals",
            true,
        ),
        (
            "#boardsize 2 2 #init () #depth 0 #blackgoals (black(1,1)) () #whitegoals",
            true,
        ),
    ];
    assert_values(&rt, rt.alloc(), &cases)
}

#[test]
fn each_mark_is_told_from_the_others(rt: HostRuntime) -> Result<(), Fail> {
    let cases = [
        (
            "#boardsize 3 1 #init (black(1,1) white(2,1)) #depth 0 #blackgoals (black(1,1) white(2,1) open(3,1)) #whitegoals",
            true,
        ),
        (
            "#boardsize 3 1 #init (black(1,1) white(2,1)) #depth 0 #blackgoals (white(1,1)) (open(1,1)) #whitegoals",
            false,
        ),
        (
            "#boardsize 3 1 #init (black(1,1) white(2,1)) #depth 0 #blackgoals (black(2,1)) (open(2,1)) #whitegoals",
            false,
        ),
        (
            "#boardsize 3 1 #init (black(1,1) white(2,1)) #depth 0 #blackgoals (black(3,1)) (white(3,1)) #whitegoals",
            false,
        ),
    ];
    assert_values(&rt, rt.alloc(), &cases)
}

#[test]
fn a_cell_may_be_marked_open(rt: HostRuntime) -> Result<(), Fail> {
    let cases = [
        (
            "#boardsize 2 1 #init (open(1,1)) #depth 0 #blackgoals (open(1,1) open(2,1)) #whitegoals",
            true,
        ),
        (
            "#boardsize 2 1 #init (open(1,1)) #depth 0 #blackgoals (black(1,1)) #whitegoals",
            false,
        ),
    ];
    assert_values(&rt, rt.alloc(), &cases)
}

#[test]
fn places_off_the_board_have_no_say(rt: HostRuntime) -> Result<(), Fail> {
    let cases = [
        (
            "#boardsize 3 2 #init (black(1,1) black(3,2)) #depth 0 #blackgoals (black(1,1) open(2,1) open(3,1) open(1,2) open(2,2) black(3,2)) #whitegoals",
            true,
        ),
        (
            "#boardsize 3 2 #init (black(1,1) black(3,2)) #depth 0 #blackgoals (black(1,1) open(2,1) black(3,1) open(1,2) open(2,2) black(3,2)) #whitegoals",
            false,
        ),
        (
            "#boardsize 5 3 #init (white(5,1) black(5,3) black(1,3)) #depth 0 #blackgoals (white(5,1) black(5,3) black(1,3) open(5,2)) #whitegoals",
            true,
        ),
        (
            "#boardsize 5 3 #init (white(5,1) black(5,3) black(1,3)) #depth 0 #blackgoals (white(5,1) black(5,3) black(1,3) black(5,2)) #whitegoals",
            false,
        ),
    ];
    assert_values(&rt, rt.alloc(), &cases)
}

#[test]
fn the_longest_line_stands(rt: HostRuntime) -> Result<(), Fail> {
    let cases = [(
        "#boardsize 4 4 #init (black(1,1) black(2,2) white(3,3) white(4,4)) #depth 0 #blackgoals (
            black(1,1) open(2,1) open(3,1) open(4,1)
            open(1,2) black(2,2) open(3,2) open(4,2)
            open(1,3) open(2,3) white(3,3) open(4,3)
            open(1,4) open(2,4) open(3,4) white(4,4)) #whitegoals",
        true,
    )];
    assert_values(&rt, rt.alloc(), &cases)
}

#[test]
fn the_last_of_256_lines_stands_on_the_largest_board(rt: HostRuntime) -> Result<(), Fail> {
    let head = "#boardsize 16 16 #init (black(16,16) white(1,16)) #depth 0 #blackgoals";
    let mut problem = String::from_str(rt.alloc(), head)?;
    for y in 1..17 {
        for x in 1..17 {
            write!(problem, " (black({x},{y}))")?;
        }
    }
    problem.push_str(" #whitegoals")?;
    assert_values(&rt, rt.alloc(), &[(problem.as_str(), true)])
}
