// A winning strategy as a certificate.
ghost use Rattle.std.specs.Prelude.{◌≡◌, ◌+◌, ◌*◌, ◌<◌, ◌≤◌, ◌^◌, [], ◌∷◌, true, false, length, Ok, IfOk};
ghost use Rattle.bddl_model.specs.declared.certificate.Node as declared_node;
ghost use Rattle.bddl_model.specs.declared.game.Side.TheVariants as sides;
ghost use Rattle.bddl_model.specs.Bounds.{game_bound, certify_bound};
ghost use Rattle.bddl_model.specs.Certificate.{IsShared};
ghost use Rattle.bddl_model.specs.Limits.{IsBoardOf};
ghost use Rattle.bddl_model.specs.Win.{win};
ghost use Rattle.lifted_encode.specs.Encoded.{setup_of};
ghost use Rattle.place_set.specs.Places.{place_at};
ghost use Rattle.strategy.specs.Extracted.{IfWon};
ghost use Rattle.strategy.specs.Growing.{Grows, waiting};

use crate::deciding::{Decided, decide};
use crate::growing::{Growing, Made};
use bddl_model::{Cert, NoMemory, Side, Steps};
use grid_game::{Board, Game, goal};
use qbf_search::Decider;
use std::alloc::Global;

/// A certificate that Black can force its goal, or that it cannot, or that the steps are spent.
#[derive(Debug, Drop)]
pub enum Extracted {
    Won(Cert),
    NotWon,
    Spent,
}

// Makes the nodes that are left, and says whether the steps sufficed.
fn grow(
    alloc: Global,
    game: &Game,
    board: &Board,
    first: Side,
    depth: u32,
    growing: &mut Growing,
    decider: &mut Box<dyn Decider>,
    steps: &mut Steps,
) -> Result<bool, NoMemory>
    requires board { IsBoardOf game.now board.now }
    requires depth { depth ≤ 31 }
    requires grows { Grows (setup_of game.now board.now.marks first depth) growing.old }
    ensures made { result ≡ Ok true → Grows (setup_of game.now board.now.marks first depth) growing.new × (length growing.new.nodes ≡ length growing.new.places) }
    ensures few { result ≡ Ok true → length growing.new.nodes < 2 ^ 64 }
    ensures spent { result ≡ Ok false → (steps.new.used ≡ steps.new.budget) × (steps.old.budget < steps.old.used + waiting (setup_of game.now board.now.marks first depth) growing.old.places (length growing.old.nodes)) }
    ensures budget { steps.new.budget ≡ steps.old.budget }
    ensures used { (steps.old.used ≤ steps.new.used) × (steps.new.used ≤ steps.old.used + waiting (setup_of game.now board.now.marks first depth) growing.old.places (length growing.old.nodes)) }
{
    let mut room = board.copy()?;
    'nodes: while (growing.nodes.as_slice().len() as u64) < growing.places.len() {
        match growing.add_node(alloc, game, &mut room, decider, steps)? {
            Made::Node => {}
            Made::Lost => unreachable!(),
            Made::Spent => return Ok(false),
        }
    }
    Ok(true)
}

// Whether Black wins from a start at which White is to move.
fn white_begins(
    alloc: Global,
    game: &Game,
    board: &Board,
    depth: u32,
    decider: &mut Box<dyn Decider>,
    steps: &mut Steps,
) -> Result<Decided, NoMemory>
    requires board { IsBoardOf game.now board.now }
    requires depth { depth ≤ 31 }
    ensures won { result ≡ Ok Decided.Win → win game.now sides.White board.now.marks depth ≡ true }
    ensures not_won { result ≡ Ok Decided.NoWin → win game.now sides.White board.now.marks depth ≡ false }
    ensures spent { result ≡ Ok Decided.Spent → (steps.new.used ≡ steps.new.budget) × (steps.old.budget < steps.old.used + game_bound (setup_of game.now board.now.marks sides.White depth)) }
    ensures budget { steps.new.budget ≡ steps.old.budget }
    ensures used { (steps.old.used ≤ steps.new.used) × (steps.new.used ≤ steps.old.used + game_bound (setup_of game.now board.now.marks sides.White depth)) }
{
    if goal(game, board, Side::Black) {
        return Ok(Decided::Win);
    }
    decide(alloc, game, board, Side::White, depth, decider, steps)
}

// Whether Black wins from a start at which it is to move. Where it does, the node of the start is made.
fn black_begins(
    alloc: Global,
    game: &Game,
    board: &Board,
    depth: u32,
    growing: &mut Growing,
    decider: &mut Box<dyn Decider>,
    steps: &mut Steps,
) -> Result<Decided, NoMemory>
    requires board { IsBoardOf game.now board.now }
    requires depth { depth ≤ 31 }
    requires places { growing.old.places ≡ place_at sides.Black board.now depth ∷ [] }
    requires nodes { growing.old.nodes ≡ [] }
    ensures won { result ≡ Ok Decided.Win → Grows (setup_of game.now board.now.marks sides.Black depth) growing.new }
    ensures not_won { result ≡ Ok Decided.NoWin → win game.now sides.Black board.now.marks depth ≡ false }
    ensures spent { result ≡ Ok Decided.Spent → (steps.new.used ≡ steps.new.budget) × (steps.old.budget < steps.old.used + certify_bound (setup_of game.now board.now.marks sides.Black depth)) }
    ensures budget { steps.new.budget ≡ steps.old.budget }
    ensures used { (steps.old.used ≤ steps.new.used) × (steps.new.used ≤ steps.old.used + certify_bound (setup_of game.now board.now.marks sides.Black depth)) }
    ensures left { result ≡ Ok Decided.Win → steps.new.used + waiting (setup_of game.now board.now.marks sides.Black depth) growing.new.places (length growing.new.nodes) ≤ steps.old.used + certify_bound (setup_of game.now board.now.marks sides.Black depth) }
{
    board.keeps_the_size();
    let mut room = board.copy()?;
    match growing.add_node(alloc, game, &mut room, decider, steps)? {
        Made::Node => Ok(Decided::Win),
        Made::Lost => Ok(Decided::NoWin),
        Made::Spent => Ok(Decided::Spent),
    }
}

// Whether Black wins from the start. Where it does and is to move there, the node of the start is made.
fn begin(
    alloc: Global,
    game: &Game,
    board: &Board,
    first: Side,
    depth: u32,
    growing: &mut Growing,
    decider: &mut Box<dyn Decider>,
    steps: &mut Steps,
) -> Result<Decided, NoMemory>
    requires board { IsBoardOf game.now board.now }
    requires depth { depth ≤ 31 }
    requires places { growing.old.places ≡ place_at first board.now depth ∷ [] }
    requires nodes { growing.old.nodes ≡ [] }
    ensures won { result ≡ Ok Decided.Win → Grows (setup_of game.now board.now.marks first depth) growing.new }
    ensures not_won { result ≡ Ok Decided.NoWin → win game.now first board.now.marks depth ≡ false }
    ensures spent { result ≡ Ok Decided.Spent → (steps.new.used ≡ steps.new.budget) × (steps.old.budget < steps.old.used + certify_bound (setup_of game.now board.now.marks first depth)) }
    ensures budget { steps.new.budget ≡ steps.old.budget }
    ensures used { (steps.old.used ≤ steps.new.used) × (steps.new.used ≤ steps.old.used + certify_bound (setup_of game.now board.now.marks first depth)) }
    ensures left { result ≡ Ok Decided.Win → steps.new.used + waiting (setup_of game.now board.now.marks first depth) growing.new.places (length growing.new.nodes) ≤ steps.old.used + certify_bound (setup_of game.now board.now.marks first depth) }
{
    board.keeps_the_size();
    match first {
        Side::Black => black_begins(alloc, game, board, depth, growing, decider, steps),
        Side::White => white_begins(alloc, game, board, depth, decider, steps),
    }
}

/// A winning strategy of Black from a board on that this side begins, for so many plies at most, as a
/// certificate with one node for each place that it leads to, numbered breadth first. In the steps that
/// are left: one is taken for each node, and more for the search of each move of Black. With as many left
/// as `certify_bound` says, it answers a certificate or that Black cannot force its goal, or memory is
/// wanting.
pub fn extract(
    alloc: Global,
    game: &Game,
    board: &Board,
    first: Side,
    depth: u32,
    decider: &mut Box<dyn Decider>,
    steps: &mut Steps,
) -> Result<Extracted, NoMemory>
    requires board { IsBoardOf game.now board.now }
    requires depth { depth ≤ 31 }
    ensures won { IfOk result (λ extracted. IfWon extracted (IsShared (setup_of game.now board.now.marks first depth))) }
    ensures small { IfOk result (λ extracted. IfWon extracted (λ nodes. length nodes < 2 ^ 64)) }
    ensures not_won { result ≡ Ok Extracted.NotWon → win game.now first board.now.marks depth ≡ false }
    ensures spent { result ≡ Ok Extracted.Spent → (steps.new.used ≡ steps.new.budget) × (steps.old.budget < steps.old.used + certify_bound (setup_of game.now board.now.marks first depth)) }
    ensures budget { steps.new.budget ≡ steps.old.budget }
    ensures used { (steps.old.used ≤ steps.new.used) × (steps.new.used ≤ steps.old.used + certify_bound (setup_of game.now board.now.marks first depth)) }
{
    let mut growing = Growing::of_start(alloc, board, first, depth)?;
    match begin(
        alloc,
        game,
        board,
        first,
        depth,
        &mut growing,
        decider,
        steps,
    )? {
        Decided::NoWin => return Ok(Extracted::NotWon),
        Decided::Spent => return Ok(Extracted::Spent),
        Decided::Win => {}
    }
    if !grow(
        alloc,
        game,
        board,
        first,
        depth,
        &mut growing,
        decider,
        steps,
    )? {
        return Ok(Extracted::Spent);
    }
    growing.places.keeps_places_apart();
    Ok(Extracted::Won(growing.nodes))
}
