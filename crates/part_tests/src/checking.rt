// Checks of two texts, and what a checked game holds.
use crate::setups::{checked, setup_of};
use bddl_model::{Atom, Mark, Rect, Side, Term, Test};
use grid_game::Game;
use offset_check::{CheckFault, Item, Setup};
use std::alloc::Global;
use std::process::Abort;
use std::test::Fail;

const STEP_AND_PUT: &str = "#blackactions
:action step :parameters (?x,?y) :precondition (black(?x,?y) NOT(black(?x+1,?y))) :effect (black(?x+1,?y) open(?x,?y))
#whiteactions
:action put :parameters (?x,?y) :precondition () :effect (white(?x,?y))";

const A_LINE_A_SIDE: &str = "#boardsize 2 2 #init (white(2,2)) #depth 31 #first white
#blackgoals (black(?x+1,?y) NOT(white(?x,?y)))
#whitegoals (white(?x,?y))";

fn near(mark: Mark, x: i32) -> Atom {
    Atom {
        mark,
        x: Term::Rel(x),
        y: Term::Rel(0),
    }
}

fn is(mark: Mark, x: i32) -> Test {
    Test {
        atom: near(mark, x),
        negated: false,
    }
}

fn is_not(mark: Mark, x: i32) -> Test {
    Test {
        atom: near(mark, x),
        negated: true,
    }
}

fn anchors(x_high: u32) -> Rect {
    Rect {
        x_low: 1,
        x_high,
        y_low: 1,
        y_high: 2,
    }
}

#[test]
fn a_game_without_fault_is_a_setup(rt: HostRuntime) -> Result<(), Fail> {
    let setup = setup_of(rt.alloc(), STEP_AND_PUT, A_LINE_A_SIDE)?;
    let (game, board) = (&setup.game, &setup.board);
    assert_eq!(rt;
        [
            game.width(),
            game.height(),
            board.width(),
            board.height(),
            setup.depth
        ],
        [2, 2, 2, 2, 31]
    );
    assert_eq!(rt; setup.first, Side::White);
    Ok(())
}

// The one action of a side, the anchors of which reach this column.
fn assert_action(
    rt: &impl Abort,
    game: &Game,
    side: Side,
    name: &[u8],
    (before, effects): (&[Test], &[Atom]),
    last: u32,
) {
    assert!(rt; game.actions(side) == 1);
    assert_eq!(rt; game.name(side, 0), name);
    assert_eq!(rt; game.before(side, 0), before);
    assert_eq!(rt; game.effects(side, 0), effects);
    assert_eq!(rt; game.action_rect(side, 0), anchors(last));
}

// The one line of a side, the anchors of which reach this column.
fn assert_line(rt: &impl Abort, game: &Game, side: Side, tests: &[Test], last: u32) {
    assert!(rt; game.lines(side) == 1);
    assert_eq!(rt; game.line(side, 0), tests);
    assert_eq!(rt; game.line_rect(side, 0), anchors(last));
}

#[test]
fn a_side_has_its_own_actions_and_lines(rt: HostRuntime) -> Result<(), Fail> {
    let Setup { game, .. } = setup_of(rt.alloc(), STEP_AND_PUT, A_LINE_A_SIDE)?;
    let before = [is(Mark::Black, 0), is_not(Mark::Black, 1)];
    let effects = [near(Mark::Black, 1), near(Mark::Free, 0)];
    assert_action(&rt, &game, Side::Black, b"step", (&before, &effects), 1);
    let put = [near(Mark::White, 0)];
    assert_action(&rt, &game, Side::White, b"put", (&[], &put), 2);
    let line = [is(Mark::Black, 1), is_not(Mark::White, 0)];
    assert_line(&rt, &game, Side::Black, &line, 1);
    assert_line(&rt, &game, Side::White, &[is(Mark::White, 0)], 2);
    Ok(())
}

// The fault of actions with these names, under this depth.
fn assert_fault(
    rt: &impl Abort,
    alloc: Global,
    names: &[&str],
    depth: u32,
    fault: CheckFault,
) -> Result<(), Fail> {
    let mut domain = String::from_str(alloc, "#blackactions")?;
    for name in names {
        domain.push_str(" :action ")?;
        domain.push_str(name)?;
        domain.push_str(" :parameters (?x,?y) :precondition () :effect ()")?;
    }
    domain.push_str(" #whiteactions")?;
    let problem = format!(in alloc;
        "#boardsize 3 2 #init (white(4,2)) #depth {depth} #blackgoals #whitegoals"
    )?;
    assert_eq!(rt; checked(alloc, &domain, &problem)?.err(), Some(fault));
    Ok(())
}

#[test]
fn the_depth_is_checked_first(rt: HostRuntime) -> Result<(), Fail> {
    let fault = CheckFault::DepthOutOfRange { said: 32 };
    assert_fault(&rt, rt.alloc(), &["a", "b", "b"], 32, fault)
}

#[test]
fn actions_are_checked_before_cells(rt: HostRuntime) -> Result<(), Fail> {
    let item = Item::Action {
        side: Side::Black,
        number: 3,
    };
    let fault = CheckFault::SameName { item, earlier: 2 };
    assert_fault(&rt, rt.alloc(), &["a", "b", "b"], 31, fault)
}

#[test]
fn cells_are_checked_at_last(rt: HostRuntime) -> Result<(), Fail> {
    let item = Item::Init { number: 1 };
    let fault = CheckFault::NumberOffBoard { item, said: 4 };
    assert_fault(&rt, rt.alloc(), &["a", "b", "c"], 0, fault)
}
