// Formulas of games with moves: their prefixes, their sizes and their values.

use crate::answers::{plain_decider, shelf_of, text_of, words_of};
use crate::domains::{ADVANCE, NONE, OCCUPY};
use crate::evaluator::Evaluator;
use crate::formula::Formula;
use bddl_requests::run;
use io_edge::{MemorySink, SteadySink};
use std::alloc::Global;
use std::fmt::Write;
use std::process::Abort;
use std::test::Fail;

// Five in a row, a stone from Black's open four.
pub const FIVE: &str = "#boardsize 15 15
#init (black(6,8) black(7,8) black(8,8) black(7,6) black(9,9) black(4,4)
white(1,1) white(15,1) white(15,15) white(1,15) white(7,9) white(5,3))
#depth 5
#blackgoals
(black(?x,?y) black(?x+1,?y) black(?x+2,?y) black(?x+3,?y) black(?x+4,?y))
(black(?x,?y) black(?x,?y+1) black(?x,?y+2) black(?x,?y+3) black(?x,?y+4))
(black(?x,?y) black(?x+1,?y+1) black(?x+2,?y+2) black(?x+3,?y+3) black(?x+4,?y+4))
(black(?x,?y) black(?x+1,?y-1) black(?x+2,?y-2) black(?x+3,?y-3) black(?x+4,?y-4))
#whitegoals
(white(?x,?y) white(?x+1,?y) white(?x+2,?y) white(?x+3,?y) white(?x+4,?y))
(white(?x,?y) white(?x,?y+1) white(?x,?y+2) white(?x,?y+3) white(?x,?y+4))
(white(?x,?y) white(?x+1,?y+1) white(?x+2,?y+2) white(?x+3,?y+3) white(?x+4,?y+4))
(white(?x,?y) white(?x+1,?y-1) white(?x+2,?y-2) white(?x+3,?y-3) white(?x+4,?y-4))";

// A game, the lines of its inputs, how many inputs there are, and how many gate variables at most.
#[derive(Clone, Copy, Debug)]
struct Sized<'a> {
    domain: &'a str,
    problem: &'a str,
    blocks: &'a str,
    inputs: usize,
    gates: usize,
}

// Behind the lines of the inputs stands one line of the gate variables, of which there are few, and
// behind that one clause for truth, three for each other gate variable, and one for the output.
fn assert_sized(rt: &impl Abort, alloc: Global, row: &Sized<'_>) -> Result<(), Fail> {
    let text = text_of(rt, alloc, row.domain, row.problem)?;
    let formula = Formula::read(alloc, &text)?;
    let (variables, clauses) = (formula.quants.len(), formula.clauses.len());
    let mut head = format!(in alloc; "p cnf {variables} {clauses}\n{}e", row.blocks)?;
    for before in row.inputs..variables {
        write!(head, " {}", before + 1)?;
    }
    head.push_str(" 0\n")?;
    assert!(rt; text.starts_with(head.as_bytes()), "{head}");
    let gates = variables.saturating_sub(row.inputs);
    assert!(rt; 1 <= gates && gates <= row.gates, "{gates} gates");
    assert_eq!(rt; clauses + 1, gates.saturating_mul(3));
    Ok(())
}

#[test]
fn each_ply_and_each_part_behind_them_has_its_inputs(rt: HostRuntime) -> Result<(), Fail> {
    let rows = [
        Sized {
            domain: OCCUPY,
            problem: "#boardsize 2 2 #init () #depth 3 #blackgoals (black(?x,?y) black(?x+1,?y)) (black(?x,?y) black(?x,?y+1)) #whitegoals",
            blocks: "e 1 2 3 4 0\na 5 6 0\ne 7 8 9 10 11 12 13 14 0\na 15 16 0\n",
            inputs: 16,
            gates: 7680,
        },
        Sized {
            domain: OCCUPY,
            problem: "#boardsize 2 1 #init () #depth 3 #blackgoals (black(?x,?y) black(?x+1,?y)) #whitegoals",
            blocks: "e 1 2 0\na 3 0\ne 4 5 6 7 8 0\na 9 0\n",
            inputs: 9,
            gates: 6048,
        },
        Sized {
            domain: NONE,
            problem: "#boardsize 2 1 #init (black(1,1) white(2,1)) #depth 0 #blackgoals (black(1,1)) #whitegoals (white(2,1))",
            blocks: "e 1 2 0\na 3 4 0\n",
            inputs: 4,
            gates: 2184,
        },
    ];
    for row in &rows {
        assert_sized(&rt, rt.alloc(), row)?;
    }
    Ok(())
}

#[test]
fn the_inputs_begin_with_a_sample_where_white_is_first(rt: HostRuntime) -> Result<(), Fail> {
    let row = Sized {
        domain: OCCUPY,
        problem: "#boardsize 2 1 #init () #depth 2 #first white #blackgoals (black(?x,?y)) #whitegoals",
        blocks: "e 1 0\na 2 0\ne 3 4 5 6 7 0\na 8 0\n",
        inputs: 8,
        gates: 4536,
    };
    assert_sized(&rt, rt.alloc(), &row)
}

#[test]
fn the_largest_board_has_few_gates(rt: HostRuntime) -> Result<(), Fail> {
    let row = Sized {
        domain: OCCUPY,
        problem: "#boardsize 64 64 #init (white(64,1)) #depth 1 #blackgoals (black(?x,?y) black(?x+1,?y)) #whitegoals",
        blocks: "e 1 2 3 4 5 6 7 8 9 10 11 12 13 14 15 16 17 18 19 20 21 22 23 24 25 26 0\n\
            a 27 28 29 30 31 32 33 34 35 36 37 38 0\n",
        inputs: 38,
        gates: 7776,
    };
    assert_sized(&rt, rt.alloc(), &row)
}

#[test]
fn five_in_a_row_has_94_inputs(rt: HostRuntime) -> Result<(), Fail> {
    let row = Sized {
        domain: OCCUPY,
        problem: FIVE,
        blocks: "e 1 2 3 4 5 6 7 8 9 10 11 12 13 14 15 16 0\n\
            a 17 18 19 20 21 22 23 24 0\n\
            e 25 26 27 28 29 30 31 32 33 34 35 36 37 38 39 40 0\n\
            a 41 42 43 44 45 46 47 48 0\n\
            e 49 50 51 52 53 54 55 56 57 58 59 60 61 62 63 64 65 66 67 68 69 70 0\n\
            a 71 72 73 74 75 76 77 78 79 80 81 82 83 0\n\
            e 84 85 86 0\n\
            a 87 88 89 90 91 92 93 94 0\n",
        inputs: 94,
        gates: 39984,
    };
    assert_sized(&rt, rt.alloc(), &row)
}

// Pieces of 4096 bytes go out as the clauses are made.
#[test]
fn a_failing_third_write_leaves_two_pieces_and_a_front(rt: HostRuntime) -> Result<(), Fail> {
    let text = text_of(&rt, rt.alloc(), OCCUPY, FIVE)?;
    let words = words_of(rt.alloc(), &[b"compile", b"d", b"p"])?;
    for (kept, length) in [(0, 8192), (100, 8292), (5000, 12288)] {
        let mut shelf = shelf_of(rt.alloc(), OCCUPY.as_bytes(), FIVE.as_bytes())?;
        let mut out = MemorySink::new(rt.alloc());
        out.fail_at(3, kept)?;
        let mut note = SteadySink::new(rt.alloc());
        let mut decider = plain_decider(rt.alloc())?;
        let status = run(
            rt.alloc(),
            &words,
            &mut shelf,
            &mut out,
            &mut note,
            &mut Vec::new(rt.alloc()),
            &mut decider,
        );
        assert!(rt; status == 4 && note.bytes().is_empty());
        assert_eq!(rt; Some(out.bytes()), text.get(..length));
    }
    Ok(())
}

// A domain, problems and the values of their formulas.
fn assert_values(
    rt: &impl Abort,
    alloc: Global,
    domain: &str,
    cases: &[(&str, bool)],
) -> Result<(), Fail> {
    for (problem, value) in cases {
        let text = text_of(rt, alloc, domain, problem)?;
        let formula = Evaluator::read(alloc, &text)?;
        assert_eq!(rt; formula.value()?, *value, "{problem}");
    }
    Ok(())
}

#[test]
fn white_can_stop_only_one_of_two_lines(rt: HostRuntime) -> Result<(), Fail> {
    let cases = [
        (
            "#boardsize 2 2 #init () #depth 3 #blackgoals (black(?x,?y) black(?x+1,?y)) (black(?x,?y) black(?x,?y+1)) #whitegoals",
            true,
        ),
        (
            "#boardsize 2 2 #init () #depth 3 #blackgoals (black(?x,?y) black(?x+1,?y)) #whitegoals",
            false,
        ),
        (
            "#boardsize 2 2 #init () #depth 2 #blackgoals (black(?x,?y) black(?x+1,?y)) (black(?x,?y) black(?x,?y+1)) #whitegoals",
            false,
        ),
        (
            "#boardsize 2 2 #init () #depth 1 #blackgoals (black(?x,?y) black(?x+1,?y)) (black(?x,?y) black(?x,?y+1)) #whitegoals",
            false,
        ),
    ];
    assert_values(&rt, rt.alloc(), OCCUPY, &cases)
}

#[test]
fn plies_may_outrun_the_board(rt: HostRuntime) -> Result<(), Fail> {
    let cases = [
        (
            "#boardsize 2 1 #init () #depth 3 #blackgoals (black(?x,?y) black(?x+1,?y)) #whitegoals",
            false,
        ),
        (
            "#boardsize 2 1 #init () #depth 3 #blackgoals (black(?x,?y)) #whitegoals",
            true,
        ),
        (
            "#boardsize 2 1 #init () #depth 6 #blackgoals (white(?x,?y)) #whitegoals",
            true,
        ),
    ];
    assert_values(&rt, rt.alloc(), OCCUPY, &cases)
}

#[test]
fn black_wins_where_both_goals_stand(rt: HostRuntime) -> Result<(), Fail> {
    let cases = [
        (
            "#boardsize 2 1 #init (black(1,1) white(2,1)) #depth 0 #blackgoals (black(1,1)) #whitegoals (white(2,1))",
            true,
        ),
        (
            "#boardsize 1 1 #init (white(1,1)) #depth 31 #blackgoals (black(1,1)) #whitegoals (white(1,1))",
            false,
        ),
        (
            "#boardsize 1 1 #init (black(1,1)) #depth 31 #blackgoals (black(1,1)) #whitegoals (black(1,1))",
            true,
        ),
    ];
    assert_values(&rt, rt.alloc(), NONE, &cases)
}

#[test]
fn white_moves_first_where_it_is_first(rt: HostRuntime) -> Result<(), Fail> {
    let cases = [
        (
            "#boardsize 2 1 #init () #depth 2 #first white #blackgoals (black(?x,?y)) #whitegoals",
            true,
        ),
        (
            "#boardsize 2 1 #init () #depth 1 #first white #blackgoals (black(?x,?y)) #whitegoals",
            false,
        ),
        (
            "#boardsize 1 1 #init () #depth 2 #first white #blackgoals (black(?x,?y)) #whitegoals",
            false,
        ),
        (
            "#boardsize 1 1 #init () #depth 1 #first white #blackgoals (white(?x,?y)) #whitegoals",
            true,
        ),
    ];
    assert_values(&rt, rt.alloc(), OCCUPY, &cases)
}

#[test]
fn a_side_that_has_no_move_ends_the_game(rt: HostRuntime) -> Result<(), Fail> {
    let cases = [
        (
            "#boardsize 1 1 #init () #depth 2 #blackgoals (white(1,1)) #whitegoals",
            false,
        ),
        (
            "#boardsize 2 1 #init () #depth 2 #blackgoals (white(xmax,1)) #whitegoals",
            true,
        ),
        (
            "#boardsize 2 1 #init () #depth 2 #blackgoals (white(xmin,1)) #whitegoals",
            true,
        ),
        (
            "#boardsize 3 1 #init () #depth 2 #blackgoals (white(xmax,1)) #whitegoals",
            false,
        ),
    ];
    assert_values(&rt, rt.alloc(), OCCUPY, &cases)
}

#[test]
fn a_negated_line_stands_where_the_mark_is_another(rt: HostRuntime) -> Result<(), Fail> {
    let cases = [
        (
            "#boardsize 1 1 #init () #depth 0 #blackgoals (NOT(white(1,1))) #whitegoals",
            true,
        ),
        (
            "#boardsize 1 1 #init (white(1,1)) #depth 0 #blackgoals (NOT(white(1,1))) #whitegoals",
            false,
        ),
    ];
    assert_values(&rt, rt.alloc(), NONE, &cases)
}

#[test]
fn a_stone_that_advances_first_wins(rt: HostRuntime) -> Result<(), Fail> {
    let cases = [
        (
            "#boardsize 2 4 #init (black(1,3) white(2,2)) #depth 1 #blackgoals (black(?x,ymax)) #whitegoals (white(?x,ymin))",
            true,
        ),
        (
            "#boardsize 2 4 #init (black(1,2) white(2,2)) #depth 1 #blackgoals (black(?x,ymax)) #whitegoals (white(?x,ymin))",
            false,
        ),
        (
            "#boardsize 2 4 #init (black(1,3) white(2,1)) #depth 1 #blackgoals (black(?x,ymax)) #whitegoals (white(?x,ymin))",
            false,
        ),
    ];
    assert_values(&rt, rt.alloc(), ADVANCE, &cases)
}
