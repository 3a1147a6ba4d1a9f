// Games that have a fault, whose first is told, and games at their limits, which have none.

use crate::answers::{assert_refused, text_of};
use crate::domains::NONE;
use std::alloc::{AllocError, Global};
use std::process::Abort;
use std::test::Fail;

// The text with the parts in its gaps, each of which is a `$`.
fn filled(alloc: Global, text: &str, parts: &[&str]) -> Result<String, AllocError> {
    let mut filled = String::new(alloc);
    let mut parts = parts.iter();
    for piece in text.split('$') {
        filled.push_str(piece)?;
        if let Some(part) = parts.next() {
            filled.push_str(part)?;
        }
    }
    Ok(filled)
}

// A domain, a problem, and the note that `compile` refuses them with, parted by a bar.
fn assert_told(rt: &impl Abort, alloc: Global, case: &str) -> Result<(), Fail> {
    let mut texts = case.split('|').map(str::as_bytes);
    let (domain, problem, note) = (texts.next(), texts.next(), texts.next());
    assert_refused(
        rt,
        alloc,
        domain.unwrap_or(b""),
        problem.unwrap_or(b""),
        note.unwrap_or(b""),
    )
}

// Each row fills the gaps of a case.
fn assert_rows(rt: &impl Abort, alloc: Global, case: &str, rows: &[&[&str]]) -> Result<(), Fail> {
    for parts in rows {
        assert_told(rt, alloc, &filled(alloc, case, parts)?)?;
    }
    Ok(())
}

const OF_BLACK: &str =
    "#blackactions :action a :parameters (?x,?y) :precondition ($) :effect ($) #whiteactions
|#boardsize 3 2 #init () #depth 0 #blackgoals #whitegoals|check: black action 1: $\n";

// Black's action has no fault.
const OF_WHITE: &str = "#blackactions
:action fine :parameters (?x,?y) :precondition (open(?x,?y)) :effect (black(?x,?y))
#whiteactions :action a :parameters (?x,?y) :precondition ($) :effect ($)
|#boardsize 3 2 #init () #depth 0 #blackgoals #whitegoals|check: white action 1: $\n";

#[test]
fn sizes_and_depths_out_of_range_are_told(rt: HostRuntime) -> Result<(), Fail> {
    let rows: [&[&str]; 8] = [
        &["65 1", "0", "width 65 is not 1 to 64"],
        &["0 1", "0", "width 0 is not 1 to 64"],
        &["1 65", "0", "height 65 is not 1 to 64"],
        &["1 0", "0", "height 0 is not 1 to 64"],
        &["999999999 0", "99", "width 999999999 is not 1 to 64"],
        &["64 99", "99", "height 99 is not 1 to 64"],
        &["64 64", "32", "depth 32 is over 31"],
        &["1 1", "999999999", "depth 999999999 is over 31"],
    ];
    assert_rows(
        &rt,
        rt.alloc(),
        "#blackactions #whiteactions|#boardsize $ #init (black(0,0)) #depth $ #blackgoals #whitegoals|check: $\n",
        &rows,
    )
}

#[test]
fn numbers_of_actions_off_the_board_are_told(rt: HostRuntime) -> Result<(), Fail> {
    let rows: [&[&str]; 15] = [
        &["open(0,1)", "", "number 0 is off the board"],
        &["open(4,1)", "", "number 4 is off the board"],
        &["open(1,0)", "", "number 0 is off the board"],
        &["open(1,3)", "", "number 3 is off the board"],
        &["open(3,2) open(5,6)", "", "number 5 is off the board"],
        &["open(?x,6) open(5,1)", "", "number 6 is off the board"],
        &["open(5,6)", "black(7,8)", "number 5 is off the board"],
        &["open(?x,?y)", "black(7,8)", "number 7 is off the board"],
        &[
            "open(xmin,ymax)",
            "black(xmax,8) black(9,ymin)",
            "number 8 is off the board",
        ],
        &["", "black(0,1)", "number 0 is off the board"],
        &["", "black(4,1)", "number 4 is off the board"],
        &["", "black(1,0)", "number 0 is off the board"],
        &["", "black(1,3)", "number 3 is off the board"],
        &["open(?x+9,?y)", "black(4,?y)", "number 4 is off the board"],
        &[
            "open(?x,?y) NOT(white(?x,3))",
            "black(4,?y)",
            "number 3 is off the board",
        ],
    ];
    assert_rows(&rt, rt.alloc(), OF_BLACK, &rows)?;
    assert_rows(&rt, rt.alloc(), OF_WHITE, &rows)
}

#[test]
fn too_many_preconditions_and_effects_are_told(rt: HostRuntime) -> Result<(), Fail> {
    let rows: [&[&str]; 2] = [
        &[
            "open(0,0) open(0,0) open(0,0) open(0,0) open(0,0) open(0,0) open(0,0) open(0,0) open(0,0)",
            "open(?x+9,?y) open(?x+9,?y) open(?x+9,?y) open(?x+9,?y) open(?x+9,?y)",
            "9 preconditions are over 8",
        ],
        &[
            "open(0,0)",
            "open(?x+9,?y) open(?x+9,?y) open(?x+9,?y) open(?x+9,?y) open(?x+9,?y)",
            "5 effects are over 4",
        ],
    ];
    assert_rows(&rt, rt.alloc(), OF_BLACK, &rows)?;
    assert_rows(&rt, rt.alloc(), OF_WHITE, &rows)
}

#[test]
fn actions_that_fit_nowhere_are_told(rt: HostRuntime) -> Result<(), Fail> {
    let rows: [&[&str]; 7] = [
        &["", "black(?x+3,?y)"],
        &["", "black(?x,?y-2)"],
        &["open(?x+999999999,?y)", ""],
        &["open(?x+1,?y)", "black(?x-2,?y)"],
        &["open(?x,?y+1) open(?x,?y-1)", "black(?x,?y)"],
        &["NOT(open(?x+3,?y))", ""],
        &["NOT(open(?x,?y+1)) open(?x,?y-1)", "black(?x,?y)"],
    ];
    assert_rows(
        &rt,
        rt.alloc(),
        "#blackactions :action b :parameters (?x,?y) :precondition (open(?x+2,?y-1)) :effect (black(xmax,ymin)) :action a :parameters (?x,?y) :precondition ($) :effect ($) #whiteactions|#boardsize 3 2 #init () #depth 0 #blackgoals #whitegoals|check: black action 2: never on the board\n",
        &rows,
    )?;
    assert_rows(
        &rt,
        rt.alloc(),
        "#blackactions #whiteactions :action b :parameters (?x,?y) :precondition (open(?x+2,?y-1)) :effect (black(xmax,ymin)) :action a :parameters (?x,?y) :precondition ($) :effect ($)|#boardsize 3 2 #init () #depth 0 #blackgoals #whitegoals|check: white action 2: never on the board\n",
        &rows,
    )
}

#[test]
fn a_name_that_stands_twice_on_a_side_is_told(rt: HostRuntime) -> Result<(), Fail> {
    let rows: [&[&str]; 4] = [
        &["a", "a", "b", " 2: same name as action 1"],
        &["a", "b", "a", " 3: same name as action 1"],
        &["a", "b", "b", " 3: same name as action 2"],
        &["a", "a", "a", " 2: same name as action 1"],
    ];
    assert_rows(
        &rt,
        rt.alloc(),
        "#blackactions :action $ :parameters (?x,?y) :precondition () :effect () :action $ :parameters (?x,?y) :precondition () :effect () :action $ :parameters (?x,?y) :precondition () :effect () #whiteactions|#boardsize 3 2 #init () #depth 0 #blackgoals #whitegoals|check: black action$\n",
        &rows,
    )?;
    assert_rows(
        &rt,
        rt.alloc(),
        "#blackactions #whiteactions :action $ :parameters (?x,?y) :precondition () :effect () :action $ :parameters (?x,?y) :precondition () :effect () :action $ :parameters (?x,?y) :precondition () :effect () |#boardsize 3 2 #init () #depth 0 #blackgoals #whitegoals|check: white action$\n",
        &rows,
    )
}

#[test]
fn faults_of_marked_cells_are_told(rt: HostRuntime) -> Result<(), Fail> {
    let rows: [&[&str]; 10] = [
        &["open(0,1)", "1: number 0 is off the board"],
        &["open(4,1)", "1: number 4 is off the board"],
        &["open(1,0)", "1: number 0 is off the board"],
        &["open(1,3)", "1: number 3 is off the board"],
        &["black(4,5)", "1: number 4 is off the board"],
        &["black(3,2) white(2,3)", "2: number 3 is off the board"],
        &["black(3,2) black(3,2)", "2: cell 3 2 is named twice"],
        &[
            "black(1,2) open(2,1) white(1,2)",
            "3: cell 1 2 is named twice",
        ],
        &[
            "black(2,1) black(2,1) black(0,0)",
            "2: cell 2 1 is named twice",
        ],
        &[
            "black(2,1) black(0,0) black(2,1)",
            "2: number 0 is off the board",
        ],
    ];
    assert_rows(
        &rt,
        rt.alloc(),
        "#blackactions #whiteactions|#boardsize 3 2 #init ($) #depth 0 #blackgoals (black(0,0)) #whitegoals|check: init atom $\n",
        &rows,
    )
}

const LINES_OF_BLACK: &str = "#blackactions #whiteactions
|#boardsize 3 2 #init () #depth 0 #blackgoals $ #whitegoals|check: black goal$\n";

const LINES_OF_WHITE: &str = "#blackactions #whiteactions
|#boardsize 3 2 #init () #depth 0 #blackgoals (black(?x,?y) black(?x+1,?y)) #whitegoals $|check: white goal$\n";

#[test]
fn faults_of_goal_lines_are_told(rt: HostRuntime) -> Result<(), Fail> {
    let rows: [&[&str]; 12] = [
        &["(black(0,1))", " 1: number 0 is off the board"],
        &["(black(4,1))", " 1: number 4 is off the board"],
        &["(black(1,0))", " 1: number 0 is off the board"],
        &["(black(1,3))", " 1: number 3 is off the board"],
        &["() (black(4,5))", " 2: number 4 is off the board"],
        &["(black(?x,5) black(4,?y))", " 1: number 5 is off the board"],
        &["(black(?x+3,?y))", " 1: never on the board"],
        &[
            "(black(?x+2,?y)) (black(?x,?y-2))",
            " 2: never on the board",
        ],
        &["(black(?x+9,?y)) (black(0,?y))", " 1: never on the board"],
        &[
            "(black(?x+9,?y) black(0,?y))",
            " 1: number 0 is off the board",
        ],
        &["(NOT(black(?x+3,?y)))", " 1: never on the board"],
        &[
            "(NOT(black(1,1))) (black(1,1) NOT(open(4,1)))",
            " 2: number 4 is off the board",
        ],
    ];
    assert_rows(&rt, rt.alloc(), LINES_OF_BLACK, &rows)?;
    assert_rows(&rt, rt.alloc(), LINES_OF_WHITE, &rows)
}

fn repeated(alloc: Global, part: &str, count: u32) -> Result<String, AllocError> {
    let mut text = String::new(alloc);
    for _ in 0..count {
        text.push_str(part)?;
    }
    Ok(text)
}

// A side has so many of these, and this is its fault.
fn assert_many(
    rt: &impl Abort,
    alloc: Global,
    case: &str,
    part: &str,
    count: u32,
    fault: &str,
) -> Result<(), Fail> {
    let parts = repeated(alloc, part, count)?;
    assert_told(rt, alloc, &filled(alloc, case, &[&parts, fault])?)
}

#[test]
fn too_many_actions_are_told(rt: HostRuntime) -> Result<(), Fail> {
    let action = ":action a :parameters (?x,?y) :precondition () :effect () ";
    let black =
        "#blackactions $ #whiteactions|#boardsize 3 2 #init () #depth 0 #blackgoals #whitegoals|check: black actions: $\n";
    assert_many(&rt, rt.alloc(), black, action, 9, "9 are over 8")?;
    let white =
        "#blackactions #whiteactions $|#boardsize 3 2 #init () #depth 0 #blackgoals #whitegoals|check: white actions: $\n";
    assert_many(&rt, rt.alloc(), white, action, 9, "9 are over 8")
}

#[test]
fn too_many_lines_are_told(rt: HostRuntime) -> Result<(), Fail> {
    let line = "(black(0,1)) ";
    assert_many(
        &rt,
        rt.alloc(),
        LINES_OF_BLACK,
        line,
        257,
        "s: 257 are over 256",
    )?;
    assert_many(
        &rt,
        rt.alloc(),
        LINES_OF_WHITE,
        line,
        257,
        "s: 257 are over 256",
    )
}

#[test]
fn long_lines_are_told(rt: HostRuntime) -> Result<(), Fail> {
    let plain = "#blackactions #whiteactions
|#boardsize 3 2 #init () #depth 0 #blackgoals () ($) #whitegoals|check: black goal$\n";
    assert_many(
        &rt,
        rt.alloc(),
        plain,
        "black(0,1) ",
        17,
        " 2: 17 atoms are over 16",
    )?;
    let negated = "#blackactions #whiteactions
|#boardsize 3 2 #init () #depth 0 #blackgoals #whitegoals (black(?x,?y) $)|check: white goal$\n";
    assert_many(
        &rt,
        rt.alloc(),
        negated,
        "NOT(black(0,1)) ",
        16,
        " 1: 17 atoms are over 16",
    )
}

#[test]
fn sizes_are_checked_first_and_then_actions(rt: HostRuntime) -> Result<(), Fail> {
    for case in [
        "#blackactions :action never :parameters (?x,?y) :precondition (open(?x+9,?y)) :effect () #whiteactions :action off :parameters (?x,?y) :precondition (open(0,1)) :effect ()|#boardsize 3 2 #init (black(0,1)) #depth 32 #blackgoals #whitegoals|check: depth 32 is over 31\n",
        "#blackactions :action never :parameters (?x,?y) :precondition (open(?x+9,?y)) :effect () #whiteactions :action off :parameters (?x,?y) :precondition (open(0,1)) :effect ()|#boardsize 3 2 #init (black(0,1)) #depth 31 #blackgoals #whitegoals|check: black action 1: never on the board\n",
        "#blackactions #whiteactions :action off :parameters (?x,?y) :precondition (open(0,1)) :effect ()|#boardsize 3 2 #init (black(0,1)) #depth 1 #blackgoals #whitegoals|check: white action 1: number 0 is off the board\n",
    ] {
        assert_told(&rt, rt.alloc(), case)?;
    }
    Ok(())
}

#[test]
fn cells_are_checked_next_and_then_goals(rt: HostRuntime) -> Result<(), Fail> {
    for case in [
        "#blackactions #whiteactions|#boardsize 3 2 #init (black(4,1)) #depth 1 #blackgoals (black(5,1)) #whitegoals |check: init atom 1: number 4 is off the board\n",
        "#blackactions #whiteactions|#boardsize 3 2 #init () #depth 1 #blackgoals (black(5,1)) #whitegoals (black(6,1))|check: black goal 1: number 5 is off the board\n",
        "#blackactions #whiteactions|#boardsize 3 2 #init () #depth 1 #blackgoals (black(1,1)) #whitegoals (black(6,1))|check: white goal 1: number 6 is off the board\n",
    ] {
        assert_told(&rt, rt.alloc(), case)?;
    }
    Ok(())
}

// Each row fills the gaps of a problem, whose game has no fault.
fn assert_fine(
    rt: &impl Abort,
    alloc: Global,
    domain: &str,
    problem: &str,
    rows: &[&[&str]],
) -> Result<(), Fail> {
    for parts in rows {
        let text = text_of(rt, alloc, domain, &filled(alloc, problem, parts)?)?;
        assert!(rt; text.starts_with(b"p cnf "));
    }
    Ok(())
}

#[test]
fn a_cell_may_be_63_columns_from_the_anchor(rt: HostRuntime) -> Result<(), Fail> {
    let case =
        "#blackactions :action a :parameters (?x,?y) :precondition (NOT(black(?x,?y))) :effect (black(?x+$,?y))
#whiteactions :action a :parameters (?x,?y) :precondition (NOT(black(?x,?y))) :effect (black(?x+63,?y))";
    let problem = "#boardsize 64 64 #init () #depth 31 #blackgoals (black(?x,?y-63)) #whitegoals";
    let nearer = filled(rt.alloc(), case, &["63"])?;
    assert_fine(&rt, rt.alloc(), &nearer, problem, &[&[]])?;
    let farther = filled(rt.alloc(), case, &["64"])?;
    let note = b"check: black action 1: never on the board\n";
    assert_refused(
        &rt,
        rt.alloc(),
        farther.as_bytes(),
        problem.as_bytes(),
        note,
    )
}

#[test]
fn each_side_may_have_the_same_eight_actions(rt: HostRuntime) -> Result<(), Fail> {
    let action = ":action $ :parameters (?x,?y) :precondition () :effect () ";
    let eight = filled(
        rt.alloc(),
        &repeated(rt.alloc(), action, 8)?,
        &["a", "b", "c", "d", "e", "f", "g", "h"],
    )?;
    let domain = filled(
        rt.alloc(),
        "#blackactions $ #whiteactions $",
        &[&eight, &eight],
    )?;
    let problem = "#boardsize 3 2 #init () #depth 0 #blackgoals #whitegoals";
    assert_fine(&rt, rt.alloc(), &domain, problem, &[&[]])
}

// Plies, goals of White, variables and sides of the board in lines, and negated tests.
#[test]
fn more_than_a_start_board_has_no_fault(rt: HostRuntime) -> Result<(), Fail> {
    let rows: [&[&str]; 11] = [
        &["1 1", "1", "", ""],
        &["1 1", "31", "()", ""],
        &["1 1", "0", "", "()"],
        &["1 1", "0", "", "(black(1,1))"],
        &["2 3", "0", "(black(?x,1))", ""],
        &["2 3", "0", "(black(?x+1,1))", ""],
        &["2 3", "0", "(black(xmin,1))", ""],
        &["2 3", "0", "(black(1,ymax))", ""],
        &["2 3", "0", "() (black(2,3) open(1,?y)) ()", ""],
        &["2 3", "0", "(NOT(black(2,3)))", ""],
        &["2 3", "0", "() (black(2,3) NOT(open(1,1)))", ""],
    ];
    let problem = "#boardsize $ #init () #depth $ #blackgoals $ #whitegoals $";
    assert_fine(&rt, rt.alloc(), NONE, problem, &rows)?;
    let one =
        "#blackactions #whiteactions :action a :parameters (?x,?y) :precondition () :effect ()";
    assert_fine(&rt, rt.alloc(), one, problem, &rows)
}

// As many lines as there may be, each as long as it may be.
fn longest_lines(alloc: Global) -> Result<String, AllocError> {
    let line = filled(alloc, "($) ", &[&repeated(alloc, "black(64,?y+63) ", 16)?])?;
    repeated(alloc, &line, 256)
}

const AT_LIMITS: &str =
    "#boardsize 64 64 #init (open(64,64)) #depth 31 #blackgoals $ #whitegoals $";

#[test]
fn lines_at_their_limits_have_no_fault(rt: HostRuntime) -> Result<(), Fail> {
    let lines = longest_lines(rt.alloc())?;
    assert_fine(&rt, rt.alloc(), NONE, AT_LIMITS, &[&[&lines, &lines]])
}

// All lists at their limits, on the greatest board.
#[test]
fn a_game_at_its_limits_has_no_fault(rt: HostRuntime) -> Result<(), Fail> {
    let alloc = rt.alloc();
    let before = repeated(alloc, "NOT(open(?x,?y-63)) ", 8)?;
    let effects = repeated(alloc, "black(?x+63,64) ", 4)?;
    let action = filled(
        alloc,
        ":action a234567890123456789012345678901$ :parameters (?x,?y) :precondition ($) :effect ($) ",
        &["$", &before, &effects],
    )?;
    let eight = repeated(alloc, &action, 8)?;
    let actions = filled(alloc, &eight, &["a", "b", "c", "d", "e", "f", "g", "h"])?;
    let domain = filled(
        alloc,
        "#blackactions $ #whiteactions $",
        &[&actions, &actions],
    )?;
    let lines = longest_lines(alloc)?;
    assert_fine(&rt, alloc, &domain, AT_LIMITS, &[&[&lines, &lines]])
}
