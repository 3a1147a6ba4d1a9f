// Lists of moves.
ghost use Rattle.std.specs.Prelude.{◌≡◌, ℕ, ◌+◌, ◌-◌, ◌*◌, ◌≤◌, ◌<◌, true, [], ◌++◌, length, max, filter, IfOk};
ghost use Rattle.std.specs.List.{list_all};
ghost use Rattle.bddl_model.specs.Game as spec;
ghost use Rattle.bddl_model.specs.Limits.{IsBoardOf};
ghost use Rattle.bddl_model.specs.Fitting.{on_board};
ghost use Rattle.bddl_model.specs.Moves.{legal, moves};
ghost use Rattle.grid_game.specs.Listed.{row_moves, action_moves, tests_hold};

use crate::atoms::all_hold;
use crate::board::Board;
use crate::game::Game;
use bddl_model::{Move, NoMemory, Rect, Side, Test};
use std::alloc::Global;
use std::marker::Model;

/// Moves, with room that was taken before. Contracts see the moves and the room.
#[derive(Debug, Drop)]
pub struct MoveList {
    moves: Vec<Move>,
}

impl Model for MoveList {
    ghost use Rattle.std.specs.Prelude.{vec_capacity};
    ghost use Rattle.grid_game.specs.Listed.{Listed};

    ghost Value = { Listed };

    ghost view = { λ l. record { moves = l.moves.items; room = vec_capacity l.moves } };
}

impl MoveList {
    /// Empty, with room for each action of either side at each cell.
    pub fn for_game(alloc: Global, game: &Game) -> Result<MoveList, NoMemory>
        ensures empty { IfOk result (λ list. list.moves ≡ []) }
        ensures room { IfOk result (λ list. list.room ≡ max (length game.now.black_actions) (length game.now.white_actions) * game.now.width * game.now.height) }
    {
        game.keeps_the_limits();
        let most = game.actions(Side::Black).max(game.actions(Side::White));
        let room = (most * game.width() * game.height()) as usize;
        Ok(MoveList {
            moves: Vec::with_capacity(alloc, room)?,
        })
    }

    pub fn as_slice(&self) -> &[Move]
        ensures { result.now ≡ self.now.moves }
    {
        &self.moves
    }

    /// How many moves it can hold.
    pub fn room(&self) -> u64
        ensures { result ≡ self.now.room }
    {
        self.moves.capacity() as u64
    }

    fn clear(&mut self)
        ensures moves { self.new.moves ≡ [] }
        ensures room { self.new.room ≡ self.old.room }
    {
        self.moves.clear();
    }
}

// Adds the moves of an action in row y and the columns of the rectangle where the preconditions hold.
fn add_row(board: &Board, rect: Rect, before: &[Test], action: u32, y: u32, list: &mut MoveList)
    requires small { (rect.x_high ≤ spec.greatest_side) × (y ≤ spec.greatest_side) }
    requires cells { (x : ℕ) → rect.x_low ≤ x → x ≤ rect.x_high → list_all (on_board board.now.width board.now.height x y) (spec.test_atoms before.now) ≡ true }
    requires room { length list.old.moves + (rect.x_high + 1 - rect.x_low) ≤ list.old.room }
    ensures moves { list.new.moves ≡ list.old.moves ++ filter (tests_hold board.now before.now) (row_moves action y rect.x_low (rect.x_high + 1 - rect.x_low)) }
    ensures room { list.new.room ≡ list.old.room }
{
    for x in rect.x_low..rect.x_high + 1 {
        if all_hold(board, x, y, before) {
            list.moves.push_reserved(Move { action, x, y });
        }
    }
}

// Adds the legal moves of an action.
fn add_action(game: &Game, board: &Board, side: Side, action: u32, list: &mut MoveList)
    requires size { IsBoardOf game.now board.now }
    requires action { action < length (spec.actions game.now side) }
    requires room { length list.old.moves + game.now.width * game.now.height ≤ list.old.room }
    ensures moves { list.new.moves ≡ list.old.moves ++ filter (legal game.now board.now.marks side) (action_moves game.now action 1 game.now.height) }
    ensures room { list.new.room ≡ list.old.room }
{
    game.keeps_the_limits();
    let rect = game.action_rect(side, action);
    let before = game.before(side, action);
    for y in rect.y_low..rect.y_high + 1 {
        add_row(board, rect, before, action, y, list);
    }
}

/// Lists the legal moves of a side in order of action, y, x, in the place of what was there. It takes
/// no memory: the list has the room.
pub fn moves_into(game: &Game, board: &Board, side: Side, list: &mut MoveList)
    requires size { IsBoardOf game.now board.now }
    requires room { length (spec.actions game.now side) * game.now.width * game.now.height ≤ list.old.room }
    ensures moves { list.new.moves ≡ moves game.now board.now.marks side }
    ensures room { list.new.room ≡ list.old.room }
{
    list.clear();
    for action in 0..game.actions(side) {
        add_action(game, board, side, action, list);
    }
}
