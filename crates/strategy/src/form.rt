// A game as a form.
ghost use Rattle.std.specs.Prelude.{◌≡◌, ◌≤◌, IfOk};
ghost use Rattle.bddl_model.specs.Encodes.{Encodes};
ghost use Rattle.bddl_model.specs.Layout as spec;
ghost use Rattle.bddl_model.specs.Limits.{IsBoardOf};
ghost use Rattle.lifted_encode.specs.Encoded.{setup_of};

use crate::circuit::{GameCircuit, game_circuit};
use bddl_model::{NoMemory, Side};
use grid_game::{Board, Game};
use move_code::Layout;
use qbf_form::Form;
use std::alloc::Global;
use tseitin::to_clauses;

/// A form for a solver, and where its inputs stand.
#[derive(Drop)]
pub struct Compiled {
    pub form: Form,
    pub layout: Layout,
}

/// The form of a game from a board on that this side begins, for so many plies at most.
pub fn compile_game(
    alloc: Global,
    game: &Game,
    board: &Board,
    first: Side,
    depth: u32,
) -> Result<Compiled, NoMemory>
    requires board { IsBoardOf game.now board.now }
    requires depth { depth ≤ 31 }
    ensures layout { IfOk result (λ c. c.layout ≡ spec.layout game.now first depth) }
    ensures form { IfOk result (λ c. Encodes c.form (setup_of game.now board.now.marks first depth)) }
{
    let GameCircuit {
        dag,
        out,
        prefix,
        layout,
    } = game_circuit(alloc, game, board, first, depth)?;
    let form = to_clauses(alloc, &dag, out, prefix)?;
    Ok(Compiled { form, layout })
}
