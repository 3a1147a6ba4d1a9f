// Moves and goals of games of few items on small boards.
ghost use Rattle.bddl_model.specs.Limits.{IsBoardOf};

use crate::setups::{is_board_of, setup_of};
use bddl_model::{Mark, Move, NoMemory, Side};
use grid_game::{Board, Game, MoveList, apply, goal, legal, moves_into};
use offset_check::Setup;
use std::alloc::Global;
use std::process::Abort;
use std::test::Fail;

const NO_ACTIONS: &str = "#blackactions #whiteactions";

fn at(x: u32, y: u32) -> Move {
    Move { action: 0, x, y }
}

// The goals of Black and of White hold so on the start board.
fn assert_goals(
    rt: &impl Abort,
    alloc: Global,
    problem: &str,
    black: bool,
    white: bool,
) -> Result<(), Fail> {
    let Setup { game, board, .. } = setup_of(alloc, NO_ACTIONS, problem)?;
    assert!(rt; is_board_of(&game, &board));
    assert_eq!(rt; goal(&game, &board, Side::Black), black, "{problem}");
    assert_eq!(rt; goal(&game, &board, Side::White), white, "{problem}");
    Ok(())
}

#[test]
fn a_line_holds_from_some_anchor(rt: HostRuntime) -> Result<(), Fail> {
    for (init, black, white) in [
        ("white(2,2)", false, false),
        ("white(2,2) black(3,1)", false, false),
        ("white(2,2) black(3,2)", true, true),
        ("black(1,1)", false, false),
        ("black(1,2)", true, false),
    ] {
        let problem = format!(in rt.alloc();
            "#boardsize 3 2 #init ({init}) #depth 0 #blackgoals (black(?x,?y+1)) #whitegoals (white(?x,?y) black(?x+1,?y))"
        )?;
        assert_goals(&rt, rt.alloc(), &problem, black, white)?;
    }
    Ok(())
}

#[test]
fn a_line_without_tests_holds(rt: HostRuntime) -> Result<(), Fail> {
    let problem = "#boardsize 1 1 #init () #depth 0 #blackgoals () #whitegoals";
    assert_goals(&rt, rt.alloc(), problem, true, false)
}

#[test]
fn a_negated_line_holds_where_the_mark_is_another(rt: HostRuntime) -> Result<(), Fail> {
    for (init, white) in [
        ("", false),
        ("white(2,1)", true),
        ("white(1,1) white(2,1)", false),
        ("black(1,1) black(2,1)", true),
    ] {
        let problem = format!(in rt.alloc();
            "#boardsize 2 1 #init ({init}) #depth 0 #blackgoals #whitegoals (NOT(white(?x,?y)) NOT(open(?x+1,?y)))"
        )?;
        assert_goals(&rt, rt.alloc(), &problem, false, white)?;
    }
    Ok(())
}

// A move of Black that is legal is made.
fn make(rt: &impl Abort, game: &Game, board: &mut Board, mv: Move) {
    assert!(rt; is_board_of(game, board));
    assert!(rt; legal(game, board, Side::Black, mv));
    apply(game, board, Side::Black, mv);
}

fn mark_at(rt: &impl Abort, board: &Board, x: u32, y: u32) -> Mark {
    assert!(rt; 1 <= x && x <= board.width() && 1 <= y && y <= board.height());
    board.at(x, y)
}

#[test]
fn a_later_effect_on_a_cell_wins(rt: HostRuntime) -> Result<(), Fail> {
    let Setup {
        game,
        mut board,
        ..
    } = setup_of(
        rt.alloc(),
        "#blackactions :action act :parameters (?x,?y) :precondition (open(?x,?y)) :effect (black(?x,?y) white(?x,?y)) #whiteactions",
        "#boardsize 1 1 #init () #depth 1 #blackgoals #whitegoals",
    )?;
    make(&rt, &game, &mut board, at(1, 1));
    assert_eq!(rt; mark_at(&rt, &board, 1, 1), Mark::White);
    Ok(())
}

// Black's stones go one row ahead.
const FORWARD: &str =
    "#blackactions :action forward :parameters (?x,?y) :precondition (black(?x,?y) open(?x,?y+1)) :effect (open(?x,?y) black(?x,?y+1)) #whiteactions";

#[test]
fn forward_needs_a_stone_and_a_free_cell_ahead(rt: HostRuntime) -> Result<(), Fail> {
    let Setup { game, board, .. } = setup_of(
        rt.alloc(),
        FORWARD,
        "#boardsize 2 4 #init (black(1,3) black(2,4)) #depth 1 #blackgoals #whitegoals",
    )?;
    assert!(rt; is_board_of(&game, &board));
    for (side, action, x, y, want) in [
        (Side::Black, 0, 1, 3, true),
        (Side::Black, 0, 2, 3, false),
        (Side::Black, 0, 1, 4, false),
        (Side::Black, 0, 2, 4, false),
        (Side::Black, 1, 1, 3, false),
        (Side::White, 0, 1, 3, false),
    ] {
        let mv = Move { action, x, y };
        assert_eq!(rt; legal(&game, &board, side, mv), want, "at {x}, {y}");
    }
    Ok(())
}

#[test]
fn forward_moves_the_stone(rt: HostRuntime) -> Result<(), Fail> {
    let Setup {
        game,
        mut board,
        ..
    } = setup_of(
        rt.alloc(),
        FORWARD,
        "#boardsize 2 4 #init (black(1,3)) #depth 1 #blackgoals #whitegoals",
    )?;
    make(&rt, &game, &mut board, at(1, 3));
    assert_eq!(rt; mark_at(&rt, &board, 1, 3), Mark::Free);
    assert_eq!(rt; mark_at(&rt, &board, 1, 4), Mark::Black);
    Ok(())
}

// The moves of Black, listed twice.
fn moves_of(alloc: Global, game: &Game, board: &Board) -> Result<MoveList, NoMemory>
    requires { IsBoardOf game.now board.now }
{
    let mut list = MoveList::for_game(alloc, game)?;
    moves_into(game, board, Side::Black, &mut list);
    moves_into(game, board, Side::Black, &mut list);
    Ok(list)
}

// These are the moves of Black, whatever the list held before, and no other one is legal.
fn assert_moves(
    rt: &impl Abort,
    alloc: Global,
    domain: &str,
    problem: &str,
    moves: &[Move],
) -> Result<(), Fail> {
    let Setup { game, board, .. } = setup_of(alloc, domain, problem)?;
    assert!(rt; is_board_of(&game, &board));
    assert_eq!(rt; moves_of(alloc, &game, &board)?.as_slice(), moves);
    for number in 0..game.width().wrapping_mul(game.height()) {
        let mv = at(number % game.width() + 1, number / game.width() + 1);
        assert_eq!(rt; legal(&game, &board, Side::Black, mv), moves.contains(&mv));
    }
    Ok(())
}

#[test]
fn moves_stand_row_by_row(rt: HostRuntime) -> Result<(), Fail> {
    assert_moves(
        &rt,
        rt.alloc(),
        "#blackactions :action occupy :parameters (?x,?y) :precondition (open(?x,?y)) :effect (black(?x,?y)) #whiteactions",
        "#boardsize 2 2 #init (white(1,1)) #depth 1 #blackgoals #whitegoals",
        &[at(2, 1), at(1, 2), at(2, 2)],
    )
}

#[test]
fn a_stone_is_stacked_on_either_colour(rt: HostRuntime) -> Result<(), Fail> {
    let domain =
        "#blackactions :action stack :parameters (?x,?y) :precondition (open(?x,?y) NOT(open(?x,?y+1))) :effect (black(?x,?y)) #whiteactions";
    let left = "#boardsize 2 2 #init (white(1,2)) #depth 1 #blackgoals #whitegoals";
    assert_moves(&rt, rt.alloc(), domain, left, &[at(1, 1)])?;
    let both = "#boardsize 2 2 #init (white(1,2) black(2,2)) #depth 1 #blackgoals #whitegoals";
    assert_moves(&rt, rt.alloc(), domain, both, &[at(1, 1), at(2, 1)])
}
