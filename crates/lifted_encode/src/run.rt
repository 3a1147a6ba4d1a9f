// The mark of the place through all plies of a layout.
ghost use Rattle.std.specs.Prelude.{◌≡◌, ◌*◌, ◌≤◌, All, List, [], ◌∷◌, ◌++◌, IfOk, OnOk};
ghost use Rattle.std.specs.List.{sum_by};
ghost use Rattle.bddl_model.specs.Board.{Board as Marks};
ghost use Rattle.bddl_model.specs.Game.{Game as GameModel};
ghost use Rattle.bddl_model.specs.Growth.{HasRoom, Grows};
ghost use Rattle.bddl_model.specs.Layout.{anchor_bits};
ghost use Rattle.bddl_model.specs.Limits.{IsBoardOf};
ghost use Rattle.symbol_cell.specs.Coded.{Carries};
ghost use Rattle.symbol_cell.specs.Runs.{Ply, Stands};
ghost use Rattle.symbol_cell.specs.Steps.{unit, step_gates};
ghost use Rattle.lifted_encode.specs.Followed.{CarryPlies, step_parts, run_parts};
ghost use Rattle.lifted_encode.specs.Telling.{IsPlyOf, IsLaidFor};

use bddl_model::{NoMemory, PlyBits};
use circuit_dag::Dag;
use grid_game::{Board, Game};
use move_code::Layout;
use std::alloc::Global;
use symbol_cell::{SymbolRun, input_word};

// One ply more, by its code's inputs.
fn also_follow(
    alloc: Global,
    dag: &mut Dag,
    game: &Game,
    ply: PlyBits,
    run: &mut SymbolRun,
) -> Result<(), NoMemory>
    requires ply { IsPlyOf game.now dag.old ply }
    requires run { (board : Marks) × Stands run.old dag.old game.now board }
    requires room { HasRoom dag.old (step_gates game.now ply.side) }
    ensures ply { OnOk result ((s : Ply) × (run.new.plies ≡ run.old.plies ++ s ∷ []) × (s.side ≡ ply.side) × Carries dag.new ply.code s.code) }
    ensures place { OnOk result (run.new.place ≡ run.old.place) }
    ensures stands { OnOk result ((board : Marks) → Stands run.old dag.old game.now board → Stands run.new dag.new game.now board) }
    ensures grows { Grows (step_gates game.now ply.side) dag.old dag.new }
{
    let code = input_word(alloc, dag, ply.code)?;
    run.step(alloc, dag, game, ply.side, &code)
}

// Plies one after the other, by their codes' inputs.
fn follow_plies(
    alloc: Global,
    dag: &mut Dag,
    game: &Game,
    plies: &[PlyBits],
    run: &mut SymbolRun,
) -> Result<(), NoMemory>
    requires plies { All (IsPlyOf game.now dag.old) plies.now }
    requires fresh { run.old.plies ≡ [] }
    requires run { (board : Marks) × Stands run.old dag.old game.now board }
    requires room { HasRoom dag.old (unit (anchor_bits game.now) * sum_by (step_parts game.now) plies.now) }
    ensures plies { OnOk result (CarryPlies dag.new plies.now run.new.plies) }
    ensures place { OnOk result (run.new.place ≡ run.old.place) }
    ensures stands { OnOk result ((board : Marks) → Stands run.old dag.old game.now board → Stands run.new dag.new game.now board) }
    ensures grows { Grows (unit (anchor_bits game.now) * sum_by (step_parts game.now) plies.now) dag.old dag.new }
{
    'plies: for number in 0..plies.len() {
        also_follow(alloc, dag, game, plies[number], run)?;
    }
    Ok(())
}

/// The run of a layout's plies from a board on.
pub fn follow(
    alloc: Global,
    dag: &mut Dag,
    game: &Game,
    board: &Board,
    depth: u32,
    layout: &Layout,
) -> Result<SymbolRun, NoMemory>
    requires board { IsBoardOf game.now board.now }
    requires laid { IsLaidFor game.now depth dag.old layout.now }
    requires room { HasRoom dag.old (unit (anchor_bits game.now) * run_parts game.now board.now.marks layout.now.plies) }
    ensures place { IfOk result (λ r. Carries dag.new layout.now.place r.place) }
    ensures plies { IfOk result (λ r. CarryPlies dag.new layout.now.plies r.plies) }
    ensures stands { IfOk result (λ r. Stands r dag.new game.now board.now.marks) }
    ensures grows { Grows (unit (anchor_bits game.now) * run_parts game.now board.now.marks layout.now.plies) dag.old dag.new }
{
    let place = input_word(alloc, dag, layout.place)?;
    let mut run = SymbolRun::start(alloc, dag, game, board, &place)?;
    follow_plies(alloc, dag, game, &layout.plies, &mut run)?;
    Ok(run)
}
