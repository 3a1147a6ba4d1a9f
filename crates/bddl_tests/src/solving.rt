// The request `solve`: games that Black wins, games that it doesn't, and steps that are spent.

use crate::answers::{Answer, answer_under, assert_answer, plain_decider, shelf_of};
use crate::certifying::assert_certified;
use crate::domains::{ADVANCE, NONE, OCCUPY};
use crate::games::FIVE;
use bddl_model::{Lit, Var};
use qbf_search::{Decider, Pick};
use std::alloc::Global;
use std::process::Abort;
use std::test::Fail;

// Two cells in a row, or one above the other.
const PAIRS: &str =
    "#boardsize 2 2 #init () #depth 3 #blackgoals (black(?x,?y) black(?x+1,?y)) (black(?x,?y) black(?x,?y+1)) #whitegoals";

// More steps than any of these games needs.
const ENOUGH: &[u8] = b"10000000000";

// The games of a domain are decided so under a decider.
fn assert_decided(
    rt: &impl Abort,
    alloc: Global,
    domain: &str,
    cases: &[(&str, bool)],
    decider: &mut Box<dyn Decider>,
) -> Result<(), Fail> {
    for (problem, won) in cases {
        let mut shelf = shelf_of(alloc, domain.as_bytes(), problem.as_bytes())?;
        let words: [&[u8]; 4] = [b"solve", b"d", b"p", ENOUGH];
        let Answer { status, out, note } = answer_under(alloc, &words, &mut shelf, decider)?;
        let (wanted, text): (u8, &[u8]) = if *won {
            (10, b"win\n")
        } else {
            (20, b"no win\n")
        };
        assert_eq!(rt; status, wanted, "{problem}");
        assert_eq!(rt; out.as_slice(), text, "{problem}");
        assert!(rt; note.is_empty(), "{problem}");
    }
    Ok(())
}

// The same under the program's decider, and a certificate is found of each that is won.
fn assert_wins(
    rt: &impl Abort,
    alloc: Global,
    domain: &str,
    cases: &[(&str, bool)],
) -> Result<(), Fail> {
    assert_decided(rt, alloc, domain, cases, &mut plain_decider(alloc)?)?;
    for (problem, won) in cases {
        assert_certified(rt, alloc, domain, problem, *won)?;
    }
    Ok(())
}

#[test]
fn start_positions_are_decided(rt: HostRuntime) -> Result<(), Fail> {
    let cases = [
        (
            "#boardsize 1 1 #init (black(1,1)) #depth 0 #blackgoals (black(1,1)) #whitegoals",
            true,
        ),
        (
            "#boardsize 1 1 #init () #depth 0 #blackgoals (black(1,1)) #whitegoals",
            false,
        ),
        (
            "#boardsize 1 1 #init () #depth 0 #blackgoals (NOT(black(1,1))) #whitegoals",
            true,
        ),
        (
            "#boardsize 2 1 #init (black(1,1) white(2,1)) #depth 0 #blackgoals (black(1,1)) #whitegoals (white(2,1))",
            true,
        ),
        (
            "#boardsize 1 1 #init (white(1,1)) #depth 31 #blackgoals (black(1,1)) #whitegoals (white(1,1))",
            false,
        ),
    ];
    assert_wins(&rt, rt.alloc(), NONE, &cases)
}

#[test]
fn three_plies_make_a_pair_and_two_do_not(rt: HostRuntime) -> Result<(), Fail> {
    let cases = [
        (PAIRS, true),
        (
            "#boardsize 2 2 #init () #depth 2 #blackgoals (black(?x,?y) black(?x+1,?y)) (black(?x,?y) black(?x,?y+1)) #whitegoals",
            false,
        ),
        (
            "#boardsize 2 2 #init () #depth 1 #blackgoals (black(?x,?y) black(?x+1,?y)) (black(?x,?y) black(?x,?y+1)) #whitegoals",
            false,
        ),
    ];
    assert_wins(&rt, rt.alloc(), OCCUPY, &cases)
}

#[test]
fn games_that_end_before_their_depth(rt: HostRuntime) -> Result<(), Fail> {
    let cases = [
        // The plies outrun the board.
        (
            "#boardsize 2 1 #init () #depth 3 #blackgoals (black(?x,?y) black(?x+1,?y)) #whitegoals",
            false,
        ),
        // White has no move.
        (
            "#boardsize 1 1 #init () #depth 2 #blackgoals (white(1,1)) #whitegoals",
            false,
        ),
        // White's only move completes Black's line.
        (
            "#boardsize 2 1 #init () #depth 2 #blackgoals (white(xmax,1)) #whitegoals",
            true,
        ),
        // White's goal stands at the start.
        (
            "#boardsize 2 1 #init (white(1,1)) #depth 1 #blackgoals (black(?x,?y)) #whitegoals (white(?x,?y))",
            false,
        ),
        // Black has no move.
        (
            "#boardsize 1 1 #init (white(1,1)) #depth 1 #blackgoals (black(1,1)) #whitegoals",
            false,
        ),
    ];
    assert_wins(&rt, rt.alloc(), OCCUPY, &cases)
}

#[test]
fn white_may_move_first(rt: HostRuntime) -> Result<(), Fail> {
    let cases = [
        (
            "#boardsize 2 1 #init () #depth 2 #first white #blackgoals (black(?x,?y)) #whitegoals",
            true,
        ),
        (
            "#boardsize 2 1 #init () #depth 1 #first white #blackgoals (black(?x,?y)) #whitegoals",
            false,
        ),
        (
            "#boardsize 1 1 #init () #depth 2 #first white #blackgoals (black(?x,?y)) #whitegoals",
            false,
        ),
    ];
    assert_wins(&rt, rt.alloc(), OCCUPY, &cases)
}

#[test]
fn a_stone_goes_ahead(rt: HostRuntime) -> Result<(), Fail> {
    let cases = [
        (
            "#boardsize 2 4 #init (black(1,3) white(2,2)) #depth 1 #blackgoals (black(?x,ymax)) #whitegoals (white(?x,ymin))",
            true,
        ),
        (
            "#boardsize 2 4 #init (black(1,2) white(2,2)) #depth 1 #blackgoals (black(?x,ymax)) #whitegoals (white(?x,ymin))",
            false,
        ),
    ];
    assert_wins(&rt, rt.alloc(), ADVANCE, &cases)
}

#[test]
fn the_later_effect_on_a_cell_is_what_stands(rt: HostRuntime) -> Result<(), Fail> {
    let domain =
        "#blackactions :action a :parameters (?x,?y) :precondition (open(?x,?y)) :effect (black(?x,?y) white(?x,?y)) #whiteactions";
    let cases = [
        (
            "#boardsize 1 1 #init () #depth 1 #blackgoals (white(1,1)) #whitegoals",
            true,
        ),
        (
            "#boardsize 1 1 #init () #depth 1 #blackgoals (black(1,1)) #whitegoals",
            false,
        ),
    ];
    assert_wins(&rt, rt.alloc(), domain, &cases)
}

// Names a place that isn't offered, and would have every variable false.
#[derive(Drop)]
struct Contrary;

impl Decider for Contrary {
    fn pick(&mut self, _free: &[Var]) -> Pick {
        Pick {
            place: 99,
            positive: false,
        }
    }

    fn learned(&mut self, _literals: &[Lit]) {}
}

#[test]
fn what_is_found_does_not_depend_on_the_decider(rt: HostRuntime) -> Result<(), Fail> {
    let mut contrary: Box<dyn Decider> = Box::new(rt.alloc(), Contrary)?;
    assert_decided(&rt, rt.alloc(), OCCUPY, &[(PAIRS, true)], &mut contrary)
}

#[test]
fn a_budget_below_the_bound_may_be_enough(rt: HostRuntime) -> Result<(), Fail> {
    let mut shelf = shelf_of(rt.alloc(), OCCUPY.as_bytes(), PAIRS.as_bytes())?;
    let words: [&[u8]; 4] = [b"solve", b"d", b"p", b"600000000"];
    assert_answer(&rt, rt.alloc(), &words, &mut shelf, 10, b"win\n", b"")
}

#[test]
fn one_step_is_spent_on_five_in_a_row(rt: HostRuntime) -> Result<(), Fail> {
    let mut shelf = shelf_of(rt.alloc(), OCCUPY.as_bytes(), FIVE.as_bytes())?;
    for budget in [b"0".as_slice(), b"1".as_slice()] {
        let words: [&[u8]; 4] = [b"solve", b"d", b"p", budget];
        assert_answer(&rt, rt.alloc(), &words, &mut shelf, 30, b"spent\n", b"")?;
    }
    Ok(())
}

#[test]
fn faults_of_the_files_come_before_the_search(rt: HostRuntime) -> Result<(), Fail> {
    let mut shelf = shelf_of(rt.alloc(), OCCUPY.as_bytes(), b"#boardsize 17 1")?;
    let words: [&[u8]; 4] = [b"solve", b"d", b"p", ENOUGH];
    let note = b"problem:1:16: text ends early\n";
    assert_answer(&rt, rt.alloc(), &words, &mut shelf, 2, b"", note)?;
    let words: [&[u8]; 4] = [b"solve", b"d", b"q", ENOUGH];
    let note = b"word 3: read fault\n";
    assert_answer(&rt, rt.alloc(), &words, &mut shelf, 3, b"", note)
}
