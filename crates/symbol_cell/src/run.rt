//! The pairs of all moments, from the start board on.
ghost use Rattle.std.specs.Prelude.{◌≡◌, ◌+◌, ◌*◌, ◌≤◌, List, [], ◌∷◌, ◌++◌, length, slice_get, Some, IfOk, OnOk, OnErr};
ghost use Rattle.std.specs.List.{sum_by};
ghost use Rattle.bddl_model.specs.declared.game.Move.{Move};
ghost use Rattle.bddl_model.specs.Truth.{Assignment};
ghost use Rattle.bddl_model.specs.Board.{Board as Marks};
ghost use Rattle.bddl_model.specs.Circuit.{Circuit, holds};
ghost use Rattle.bddl_model.specs.Codes.{shape_of, code_length};
ghost use Rattle.bddl_model.specs.Encoding.{AreCoded, shown, place_read};
ghost use Rattle.bddl_model.specs.Exact.{position};
ghost use Rattle.bddl_model.specs.Game.{Game as GameModel};
ghost use Rattle.bddl_model.specs.Growth.{HasRoom, Grows};
ghost use Rattle.bddl_model.specs.Layout.{anchor_bits};
ghost use Rattle.bddl_model.specs.Limits.{IsBoardOf};
ghost use Rattle.bddl_model.specs.Setup.{Setup};
ghost use Rattle.bddl_model.specs.Words.{AreWires};
ghost use Rattle.symbol_cell.specs.Coded.{CarriesLayout};
ghost use Rattle.symbol_cell.specs.Pairs.{IsPair, mark_of};
ghost use Rattle.symbol_cell.specs.Runs.{Run, Stands, Name, board_after, place_named};
ghost use Rattle.symbol_cell.specs.Starts.{filled, cell_gates};
ghost use Rattle.symbol_cell.specs.Steps.{step_gates};

use crate::pair::Pair;
use crate::start::put_board;
use crate::step::put_move;
use bddl_model::{NoMemory, Side, Wire};
use circuit_dag::Dag;
use grid_game::{Board, Game};
use std::alloc::Global;
use std::marker::Model;

#[derive(Drop)]
struct Step {
    side: Side,
    code: Vec<Wire>,
    pair: Pair,
}

/// The mark of a place from moment to moment. Contracts see the place, the plies, and a pair for each
/// moment, of which there is one more.
#[derive(Drop)]
pub struct SymbolRun {
    place: Vec<Wire>,
    first: Pair,
    steps: Vec<Step>,
}

impl Model for SymbolRun {
    ghost use Rattle.std.specs.Prelude.{◌∷◌, map};
    ghost use Rattle.symbol_cell.specs.Runs.{Run};
    ghost use Rattle.symbol_cell.specs.Views.{ply_of, pair_of};

    ghost Value = { Run };

    ghost view = { λ r. record { place = r.place.items; plies = map ply_of r.steps.items; pairs = r.first ∷ map pair_of r.steps.items } };
}

impl SymbolRun {
    /// The start board at the place, and no ply.
    pub fn start(
        alloc: Global,
        dag: &mut Dag,
        game: &Game,
        board: &Board,
        place: &[Wire],
    ) -> Result<SymbolRun, NoMemory>
        requires board { IsBoardOf game.now board.now }
        requires place { AreWires dag.old place.now }
        requires place_bits { length place.now ≡ anchor_bits game.now }
        requires room { HasRoom dag.old (cell_gates (length place.now) * sum_by filled board.now.marks) }
        ensures place { IfOk result (λ r. r.place ≡ place.now) }
        ensures plies { IfOk result (λ r. r.plies ≡ []) }
        ensures stands { IfOk result (λ r. Stands r dag.new game.now board.now.marks) }
        ensures grows { Grows (cell_gates (length place.now) * sum_by filled board.now.marks) dag.old dag.new }
    {
        board.keeps_the_size();
        let first = put_board(dag, game, board, place)?;
        let place = Vec::from_slice(alloc, place)?;
        Ok(SymbolRun {
            place,
            first,
            steps: Vec::new(alloc),
        })
    }

    /// One ply more, by the wires of its code. Where memory is wanting, there are some gates more.
    pub fn step(
        &mut self,
        alloc: Global,
        dag: &mut Dag,
        game: &Game,
        side: Side,
        code: &[Wire],
    ) -> Result<(), NoMemory>
        requires stands { (board : Marks) × Stands self.old dag.old game.now board }
        requires code { AreWires dag.old code.now }
        requires code_bits { length code.now ≡ code_length (shape_of game.now side) }
        requires room { HasRoom dag.old (step_gates game.now side) }
        ensures added { OnOk result ((p : Pair) × (self.new ≡ record self.old { plies = self.old.plies ++ record { side = side; code = code.now } ∷ []; pairs = self.old.pairs ++ p ∷ [] })) }
        ensures stands { OnOk result ((board : Marks) → Stands self.old dag.old game.now board → Stands self.new dag.new game.now board) }
        ensures grows { Grows (step_gates game.now side) dag.old dag.new }
        ensures err { OnErr result (self.new ≡ self.old) }
    {
        let before = self.pair_at(self.steps.len());
        let pair = put_move(alloc, dag, game, side, code, &self.place, before)?;
        let code = Vec::from_slice(alloc, code)?;
        self.steps.push(Step { side, code, pair })?;
        Ok(())
    }

    /// A law: there is a moment before the first ply, and one behind each.
    pub fn keeps_its_moments(&self)
        ensures { length self.now.pairs ≡ length self.now.plies + 1 }
    {
        let _ = &self.steps;
    }

    /// The wires of the place.
    pub fn place(&self) -> &[Wire]
        ensures { result.now ≡ self.now.place }
    {
        &self.place
    }

    fn pair_at(&self, time: usize) -> Pair
        requires { time ≤ length self.now.plies }
        ensures { slice_get self.now.pairs time ≡ Some result }
    {
        if time == 0 {
            return self.first;
        }
        self.steps[time - 1].pair
    }

    /// The wires that hold where the mark after so many plies is black, and where it is white.
    pub fn mark(&self, time: u32) -> (Wire, Wire)
        requires { time ≤ length self.now.plies }
        ensures pair { slice_get self.now.pairs time ≡ Some (record { black = result.0; white = result.1 }) }
        ensures apart { (c : Circuit) (g : GameModel) (board : Marks) → Stands self.now c g board → IsPair c (record { black = result.0; white = result.1 }) }
        ensures shows { (c : Circuit) (g : GameModel) (board : Marks) (a : Assignment) (moves : List Move) → Stands self.now c g board → length moves ≡ time → Name g c a board self.now.plies moves
            → mark_of c (record { black = result.0; white = result.1 }) a ≡ shown g (board_after g board self.now.plies moves) (place_named g c a self.now.place) }
    {
        let pair = self.pair_at(time as usize);
        (pair.black, pair.white)
    }
}

/// Gates that come later keep what stands.
pub fn later_gates_keep()
    ensures { (most : _) (run : Run) (old new : Circuit) (g : GameModel) (board : Marks) → Grows most old new → Stands run old g board → Stands run new g board }
{}

/// A law: of a run whose words carry the inputs of a setup's layout, the pair of each moment shows the
/// mark of the position at the place.
pub fn layout_marks_are_shown()
    ensures { (s : Setup) (c : Circuit) (run : Run) (a : Assignment) (moves : List Move) (pair : Pair) → Stands run c s.game s.board → CarriesLayout s c run → length moves ≤ length run.plies
        → AreCoded s.game s.depth a s.first s.board 1 moves → slice_get run.pairs (length moves) ≡ Some pair
        → mark_of c pair a ≡ shown s.game (position s moves) (place_read s a) }
{}
