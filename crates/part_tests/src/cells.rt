// The marks of places, by wires that always hold or never, beside those of boards.
ghost use Rattle.std.specs.Prelude.{◌≡◌};
ghost use Rattle.bddl_model.specs.Limits.{IsBoardOf};

use crate::setups::{is_board_of, setup_of};
use crate::wires::{bit, word};
use bddl_model::{Mark, Move, NoMemory, Side, Wire};
use circuit_dag::Dag;
use grid_game::{Board, Game, MoveList, apply, legal, moves_into};
use move_code::{Shape, bits};
use offset_check::Setup;
use std::alloc::Global;
use std::process::Abort;
use std::test::Fail;
use symbol_cell::{SymbolRun, takes_few_gates};

// The mark that two constant wires show.
fn shown(dag: &Dag, wires: (Wire, Wire)) -> Option<Mark> {
    let (always, never) = (bit(dag, true), bit(dag, false));
    match (wires.0 == always, wires.1 == always) {
        (true, _) => (wires.1 == never).then_some(Mark::Black),
        (false, true) => (wires.0 == never).then_some(Mark::White),
        (false, false) => (wires.0 == never && wires.1 == never).then_some(Mark::Free),
    }
}

// The marks of a place before, between and after two plies, this side first. The place and the
// codes are given by the numbers that their bits make.
fn marks_of_run(
    alloc: Global,
    game: &Game,
    board: &Board,
    first: Side,
    codes: (u32, u32),
    place: u32,
) -> Result<[Option<Mark>; 3], NoMemory>
    requires { IsBoardOf game.now board.now }
{
    takes_few_gates(game);
    board.keeps_the_size();
    let second = first.opponent();
    let mut dag = Dag::new(alloc, 0)?;
    let place = word(alloc, &dag, place, bits(game.width()) + bits(game.height()))?;
    let one = word(alloc, &dag, codes.0, Shape::of(game, first).len())?;
    let other = word(alloc, &dag, codes.1, Shape::of(game, second).len())?;
    let mut run = SymbolRun::start(alloc, &mut dag, game, board, &place)?;
    run.step(alloc, &mut dag, game, first, &one)?;
    run.step(alloc, &mut dag, game, second, &other)?;
    Ok([
        shown(&dag, run.mark(0)),
        shown(&dag, run.mark(1)),
        shown(&dag, run.mark(2)),
    ])
}

// Each case: the numbers of a code of Black and of one of White, that of a place, and the marks there
// before, between and after the two plies.
fn assert_marks(
    rt: &impl Abort,
    alloc: Global,
    domain: &str,
    problem: &str,
    cases: &[((u32, u32), u32, [Mark; 3])],
) -> Result<(), Fail> {
    let Setup { game, board, .. } = setup_of(alloc, domain, problem)?;
    assert!(rt; is_board_of(&game, &board));
    for (codes, place, marks) in cases {
        let found = marks_of_run(alloc, &game, &board, Side::Black, *codes, *place)?;
        assert_eq!(rt; found, marks.map(Some), "at place {place}");
    }
    Ok(())
}

const OCCUPYING: &str = "#blackactions
:action occupy
:parameters (?x, ?y)
:precondition (open(?x,?y))
:effect (black(?x,?y))
#whiteactions
:action occupy
:parameters (?x, ?y)
:precondition (open(?x,?y))
:effect (white(?x,?y))";

#[test]
fn occupying_shows_at_the_cell_alone(rt: HostRuntime) -> Result<(), Fail> {
    assert_marks(
        &rt,
        rt.alloc(),
        OCCUPYING,
        "#boardsize 2 2 #init () #depth 2 #blackgoals #whitegoals",
        &[
            ((0, 1), 1, [Mark::Free, Mark::Free, Mark::White]),
            ((0, 1), 0, [Mark::Free, Mark::Black, Mark::Black]),
            ((0, 1), 2, [Mark::Free, Mark::Free, Mark::Free]),
        ],
    )
}

#[test]
fn of_two_effects_on_one_cell_the_later_one_wins(rt: HostRuntime) -> Result<(), Fail> {
    assert_marks(
        &rt,
        rt.alloc(),
        "#blackactions :action a :parameters (?x,?y) :precondition () :effect (black(?x,?y) white(?x,?y))
#whiteactions :action a :parameters (?x,?y) :precondition () :effect (black(?x,?y) open(?x,?y))",
        "#boardsize 2 2 #init () #depth 2 #blackgoals #whitegoals",
        &[((2, 2), 2, [Mark::Free, Mark::White, Mark::Free])],
    )
}

// On 3 by 2 a word of two bits has a fourth column, from which the cell to the right is none.
#[test]
fn a_shift_never_wraps(rt: HostRuntime) -> Result<(), Fail> {
    assert_marks(
        &rt,
        rt.alloc(),
        "#blackactions :action right :parameters (?x,?y) :precondition () :effect (black(?x+1,?y))
#whiteactions :action left :parameters (?x,?y) :precondition () :effect (white(?x-1,?y))",
        "#boardsize 3 2 #init () #depth 2 #blackgoals #whitegoals",
        &[
            ((3, 0), 0, [Mark::Free, Mark::Free, Mark::Free]),
            ((3, 0), 3, [Mark::Free, Mark::Free, Mark::Free]),
            ((1, 2), 2, [Mark::Free, Mark::Black, Mark::Black]),
            ((1, 2), 1, [Mark::Free, Mark::Free, Mark::White]),
        ],
    )
}

// White has no actions. The places are (3, 1), (1, 2), and (4, 2), which is off the board.
#[test]
fn the_start_is_read_row_by_row_and_no_action_leaves_it(rt: HostRuntime) -> Result<(), Fail> {
    assert_marks(
        &rt,
        rt.alloc(),
        "#blackactions :action free :parameters (?x,?y) :precondition () :effect (open(?x,?y)) #whiteactions",
        "#boardsize 3 2 #init (black(3,1) white(1,2)) #depth 2 #blackgoals #whitegoals",
        &[
            ((0, 0), 2, [Mark::Black, Mark::Black, Mark::Black]),
            ((4, 0), 4, [Mark::White, Mark::Free, Mark::Free]),
            ((2, 0), 2, [Mark::Black, Mark::Free, Mark::Free]),
            ((4, 0), 7, [Mark::Free, Mark::Free, Mark::Free]),
        ],
    )
}

#[test]
fn a_board_of_one_cell_takes_no_bits(rt: HostRuntime) -> Result<(), Fail> {
    assert_marks(
        &rt,
        rt.alloc(),
        OCCUPYING,
        "#boardsize 1 1 #init () #depth 2 #blackgoals #whitegoals",
        &[((0, 0), 0, [Mark::Free, Mark::Black, Mark::White])],
    )
}

// Of 64 by 64 the last cell has the greatest number of 12 bits.
#[test]
fn the_last_cell_of_64_by_64_is_reached(rt: HostRuntime) -> Result<(), Fail> {
    assert_marks(
        &rt,
        rt.alloc(),
        "#blackactions :action here :parameters (?x,?y) :precondition () :effect (black(?x,?y))
#whiteactions :action last :parameters (?x,?y) :precondition () :effect (white(64,?y+63))",
        "#boardsize 64 64 #init () #depth 2 #blackgoals #whitegoals",
        &[
            ((0, 0), 4095, [Mark::Free, Mark::Free, Mark::White]),
            ((4095, 64), 4095, [Mark::Free, Mark::Black, Mark::Black]),
        ],
    )
}

// The number of the bits of these numbers, one behind the other, each in so many bits.
fn number_of(parts: &[(u32, u32)]) -> u32 {
    let mut number = 0u32;
    for (value, count) in parts.iter().rev() {
        number = number.wrapping_shl(*count).wrapping_add(*value);
    }
    number
}

fn place_of(game: &Game, x: u32, y: u32) -> u32 {
    number_of(&[
        (x.wrapping_sub(1), bits(game.width())),
        (y.wrapping_sub(1), bits(game.height())),
    ])
}

// The mark of a cell, and none off the board.
fn mark_at(board: &Board, x: u32, y: u32) -> Mark {
    if x < 1 || x > board.width() || y < 1 || y > board.height() {
        return Mark::Free;
    }
    board.at(x, y)
}

// Before a move the place shows the mark that the first board has, and after it that of the second.
fn assert_shown(
    rt: &impl Abort,
    alloc: Global,
    game: &Game,
    boards: (&Board, &Board),
    ply: (Side, u32),
    place: (u32, u32),
) -> Result<(), Fail> {
    let (before, after) = boards;
    let (x, y) = place;
    assert!(rt; is_board_of(game, before));
    let marks = marks_of_run(alloc, game, before, ply.0, (ply.1, 0), place_of(game, x, y))?;
    assert_eq!(rt; marks[0], Some(mark_at(before, x, y)));
    assert_eq!(rt; marks[1], Some(mark_at(after, x, y)), "at {x}, {y}");
    Ok(())
}

fn code_of(game: &Game, side: Side, mv: Move) -> u32 {
    let actions = Shape::of(game, side).actions;
    number_of(&[(mv.action, bits(actions)), (place_of(game, mv.x, mv.y), 0)])
}

// A legal move is followed at its anchor and at these places; answers the board after it.
fn assert_move_is_followed(
    rt: &impl Abort,
    alloc: Global,
    game: &Game,
    board: &Board,
    side: Side,
    mv: Move,
    places: &[(u32, u32)],
) -> Result<Board, Fail> {
    let after = board_after(rt, game, board, side, mv)?;
    let ply = (side, code_of(game, side, mv));
    assert_shown(rt, alloc, game, (board, &after), ply, (mv.x, mv.y))?;
    for place in places {
        assert_shown(rt, alloc, game, (board, &after), ply, *place)?;
    }
    Ok(after)
}

// The board after a move.
fn board_after(
    rt: &impl Abort,
    game: &Game,
    board: &Board,
    side: Side,
    mv: Move,
) -> Result<Board, NoMemory> {
    let mut after = board.copy()?;
    assert!(rt; is_board_of(game, &after));
    assert!(rt; legal(game, &after, side, mv));
    apply(game, &mut after, side, mv);
    Ok(after)
}

fn moves_of_side(
    alloc: Global,
    game: &Game,
    board: &Board,
    side: Side,
) -> Result<MoveList, NoMemory>
    requires { IsBoardOf game.now board.now }
{
    let mut list = MoveList::for_game(alloc, game)?;
    moves_into(game, board, side, &mut list);
    Ok(list)
}

// Each legal move of a side is followed; answers the board after the last of them.
fn assert_moves_are_followed(
    rt: &impl Abort,
    alloc: Global,
    game: &Game,
    board: &Board,
    side: Side,
    places: &[(u32, u32)],
) -> Result<Board, Fail> {
    assert!(rt; is_board_of(game, board));
    let list = moves_of_side(alloc, game, board, side)?;
    let mut last = board.copy()?;
    for mv in list.as_slice() {
        last = assert_move_is_followed(rt, alloc, game, board, side, *mv, places)?;
    }
    Ok(last)
}

// The plies of a game, in which each side makes its last move.
fn assert_game_is_followed(
    rt: &impl Abort,
    alloc: Global,
    domain: &str,
    problem: &str,
    places: &[(u32, u32)],
) -> Result<(), Fail> {
    let setup = setup_of(alloc, domain, problem)?;
    let (mut board, mut side) = (setup.board, setup.first);
    for _ in 0..setup.depth {
        board = assert_moves_are_followed(rt, alloc, &setup.game, &board, side, places)?;
        side = side.opponent();
    }
    Ok(())
}

// All places of two bits for the column and two for the row, some of which are off a board of three
// columns.
const PLACES: [(u32, u32); 16] = [
    (1, 1),
    (2, 1),
    (3, 1),
    (4, 1),
    (1, 2),
    (2, 2),
    (3, 2),
    (4, 2),
    (1, 3),
    (2, 3),
    (3, 3),
    (4, 3),
    (1, 4),
    (2, 4),
    (3, 4),
    (4, 4),
];

// Tic-tac-toe, begun by either side, and the two games of Hex, which have its moves.
#[test]
fn each_move_of_occupying_games_is_followed(rt: HostRuntime) -> Result<(), Fail> {
    for problem in [
        "#boardsize 3 3 #init () #depth 9 #blackgoals #whitegoals",
        "#boardsize 3 3 #init (black(2,2) black(1,1) white(2,1)) #depth 4 #first white #blackgoals #whitegoals",
        "#boardsize 4 4 #init () #depth 7 #blackgoals #whitegoals",
    ] {
        assert_game_is_followed(&rt, rt.alloc(), OCCUPYING, problem, &PLACES)?;
    }
    Ok(())
}

#[test]
fn each_move_of_five_in_a_row_is_followed(rt: HostRuntime) -> Result<(), Fail> {
    let problem =
        "#boardsize 15 15 #init (black(6,8) black(7,8) black(8,8) white(1,1) white(15,1) white(15,15)) #depth 3 #blackgoals #whitegoals";
    let places = [(6, 8), (1, 1), (15, 15), (9, 9), (16, 16)];
    assert_game_is_followed(&rt, rt.alloc(), OCCUPYING, problem, &places)
}

const CONNECT: &str = "#blackactions
:action drop
:parameters (?x, ?y)
:precondition (open(?x,?y) NOT(open(?x,?y+1)))
:effect (black(?x,?y))
:action drop-to-bottom
:parameters (?x, ?y)
:precondition (open(?x,?y) open(?x,?y-3))
:effect (black(?x,?y))
#whiteactions
:action drop
:parameters (?x, ?y)
:precondition (open(?x,?y) NOT(open(?x,?y+1)))
:effect (white(?x,?y))
:action drop-to-bottom
:parameters (?x, ?y)
:precondition (open(?x,?y) open(?x,?y-3))
:effect (white(?x,?y))";

#[test]
fn each_move_of_connect_3_is_followed(rt: HostRuntime) -> Result<(), Fail> {
    let problem = "#boardsize 4 4 #init () #depth 9 #blackgoals #whitegoals";
    assert_game_is_followed(&rt, rt.alloc(), CONNECT, problem, &PLACES)
}

const BREAKTHROUGH: &str = "#blackactions
:action forward
:parameters (?x, ?y)
:precondition (black(?x,?y) open(?x,?y-1))
:effect (open(?x,?y) black(?x,?y-1))
:action left
:parameters (?x, ?y)
:precondition (black(?x,?y) open(?x-1,?y-1))
:effect (open(?x,?y) black(?x-1,?y-1))
:action right
:parameters (?x, ?y)
:precondition (black(?x,?y) open(?x+1,?y-1))
:effect (open(?x,?y) black(?x+1,?y-1))
:action take-left
:parameters (?x, ?y)
:precondition (black(?x,?y) white(?x-1,?y-1))
:effect (open(?x,?y) black(?x-1,?y-1))
:action take-right
:parameters (?x, ?y)
:precondition (black(?x,?y) white(?x+1,?y-1))
:effect (open(?x,?y) black(?x+1,?y-1))
#whiteactions
:action forward
:parameters (?x, ?y)
:precondition (white(?x,?y) open(?x,?y+1))
:effect (open(?x,?y) white(?x,?y+1))
:action left
:parameters (?x, ?y)
:precondition (white(?x,?y) open(?x-1,?y+1))
:effect (open(?x,?y) white(?x-1,?y+1))
:action right
:parameters (?x, ?y)
:precondition (white(?x,?y) open(?x+1,?y+1))
:effect (open(?x,?y) white(?x+1,?y+1))
:action take-left
:parameters (?x, ?y)
:precondition (white(?x,?y) black(?x-1,?y+1))
:effect (open(?x,?y) white(?x-1,?y+1))
:action take-right
:parameters (?x, ?y)
:precondition (white(?x,?y) black(?x+1,?y+1))
:effect (open(?x,?y) white(?x+1,?y+1))";

#[test]
fn each_move_of_breakthrough_is_followed(rt: HostRuntime) -> Result<(), Fail> {
    let problem =
        "#boardsize 3 4 #init (white(1,1) white(2,1) white(3,1) white(1,2) white(2,2) white(3,2) black(1,3) black(2,3) black(3,3) black(1,4) black(2,4) black(3,4)) #depth 9 #blackgoals #whitegoals";
    assert_game_is_followed(&rt, rt.alloc(), BREAKTHROUGH, problem, &PLACES)
}
