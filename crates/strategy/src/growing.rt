// A certificate as it grows, node by node.
ghost use Rattle.std.specs.Prelude.{◌≡◌, ◌+◌, ◌*◌, ◌<◌, ◌≤◌, true, false, [], ◌∷◌, length, map, slice_get, Some, Ok, IfOk, OnOk};
ghost use Rattle.bddl_model.specs.declared.certificate.Node as declared_node;
ghost use Rattle.bddl_model.specs.declared.certificate.Node.TheVariants as nodes;
ghost use Rattle.bddl_model.specs.declared.certificate.NodeNo as declared_number;
ghost use Rattle.bddl_model.specs.declared.game.Move as declared_move;
ghost use Rattle.bddl_model.specs.declared.game.Side.TheVariants as sides;
ghost use Rattle.bddl_model.specs.Bounds.{game_bound};
ghost use Rattle.bddl_model.specs.Certificate.{Place};
ghost use Rattle.bddl_model.specs.Goal.{goal};
ghost use Rattle.bddl_model.specs.Limits.{IsBoardOf};
ghost use Rattle.bddl_model.specs.Moves.{legal, moves};
ghost use Rattle.bddl_model.specs.Win.{win};
ghost use Rattle.lifted_encode.specs.Encoded.{setup_of};
ghost use Rattle.place_set.specs.Places.{place_at, HasSize};
ghost use Rattle.strategy.specs.FirstMoves.{WinsBy};
ghost use Rattle.bddl_laws.specs.BreadthFirst.{IsNumbered, AreNumbered};
ghost use Rattle.strategy.specs.Growing.{Adds, AwaitsReplies, AwaitsWhite, AwaitsNode, search_at, IsNodeAt};

use crate::moving::{FirstMove, first_move};
use bddl_model::{Answered, Cert, Move, NoMemory, Node, NodeNo, ReplyList, Side, Steps};
use grid_game::{Board, Game, MoveList, apply, goal, moves_into};
use place_set::PlaceSet;
use qbf_search::Decider;
use std::alloc::Global;

/// The places that were met, and the nodes that were made of the first of them, in their order.
#[derive(Debug, Drop)]
pub struct Growing {
    pub places: PlaceSet,
    pub nodes: Cert,
}

/// A node was made, or Black has lost from its place, or the steps are spent.
#[derive(Clone, Copy, Debug, PartialEq, Eq)]
pub enum Made {
    Node,
    Lost,
    Spent,
}

// White's move at the place with this number, and the number of the place behind it.
fn reply(
    places: &mut PlaceSet,
    game: &Game,
    board: &mut Board,
    number: u64,
    mv: Move,
) -> Result<Answered, NoMemory>
    requires number { number < length places.old }
    requires size { IsBoardOf game.now board.old }
    requires place { (p : Place) → slice_get places.old number ≡ Some p → AwaitsReplies game.now p (mv ∷ []) }
    ensures mv { IfOk result (λ a. a.mv ≡ mv) }
    ensures numbered { IfOk result (λ a. (p : Place) → slice_get places.old number ≡ Some p → IsNumbered game.now p a places.old places.new) }
    ensures size { (board.new.width ≡ board.old.width) × (board.new.height ≡ board.old.height) }
{
    let (_, left) = places.go_to(number, board);
    apply(game, board, Side::White, mv);
    let next = places.number(Side::Black, board, left - 1)?;
    Ok(Answered {
        mv,
        next: NodeNo(next),
    })
}

// These moves of White at the place with this number, each with the number of the place behind it.
fn replies(
    alloc: Global,
    places: &mut PlaceSet,
    game: &Game,
    board: &mut Board,
    number: u64,
    moves: &[Move],
) -> Result<ReplyList, NoMemory>
    requires number { number < length places.old }
    requires size { IsBoardOf game.now board.old }
    requires place { (p : Place) → slice_get places.old number ≡ Some p → AwaitsReplies game.now p moves.now }
    ensures moves { IfOk result (λ all. map (λ a. a.mv) all ≡ moves.now) }
    ensures numbered { IfOk result (λ all. (p : Place) → slice_get places.old number ≡ Some p → AreNumbered game.now p all places.old places.new) }
    ensures size { (board.new.width ≡ board.old.width) × (board.new.height ≡ board.old.height) }
{
    let mut all = ReplyList::new(alloc);
    for mv in moves {
        let answered = reply(places, game, board, number, *mv)?;
        all.push(answered)?;
    }
    Ok(all)
}

impl Growing {
    /// With the start alone, and without nodes.
    pub fn of_start(
        alloc: Global,
        board: &Board,
        first: Side,
        depth: u32,
    ) -> Result<Growing, NoMemory>
        ensures { IfOk result (λ g. (g.places ≡ place_at first board.now depth ∷ []) × (g.nodes ≡ [])) }
    {
        let mut places = PlaceSet::new(alloc);
        places.number(first, board, depth)?;
        Ok(Growing {
            places,
            nodes: Cert::new(alloc),
        })
    }

    // Makes this move of Black from the board of the next node's place the next node.
    fn add_black(
        &mut self,
        game: &Game,
        board: &mut Board,
        left: u32,
        mv: Move,
    ) -> Result<(), NoMemory>
        requires size { IsBoardOf game.now board.old }
        requires legal { legal game.now board.old.marks sides.Black mv ≡ true }
        requires left { 1 ≤ left }
        ensures node { OnOk result ((next : declared_number.NodeNo) × Adds game.now (place_at sides.Black board.old left) (nodes.Black mv next) self.old self.new) }
        ensures size { (board.new.width ≡ board.old.width) × (board.new.height ≡ board.old.height) }
    {
        apply(game, board, Side::Black, mv);
        let next = self.places.number(Side::White, board, left - 1)?;
        self.nodes.push(Node::Black {
            mv,
            next: NodeNo(next),
        })
    }

    // Makes a move by which Black wins the next node: from the board of its place, where Black is to
    // move and its goal doesn't stand.
    fn black_node(
        &mut self,
        alloc: Global,
        game: &Game,
        board: &mut Board,
        left: u32,
        decider: &mut Box<dyn Decider>,
        steps: &mut Steps,
    ) -> Result<Made, NoMemory>
        requires size { IsBoardOf game.now board.old }
        requires left { left ≤ 31 }
        requires unfinished { goal game.now board.old.marks sides.Black ≡ false }
        ensures made { result ≡ Ok Made.Node → (node : declared_node.Node)
            × Adds game.now (place_at sides.Black board.old left) node self.old self.new × IsNodeAt game.now (place_at sides.Black board.old left) node }
        ensures lost { result ≡ Ok Made.Lost → win game.now sides.Black board.old.marks left ≡ false }
        ensures spent { result ≡ Ok Made.Spent → (steps.new.used ≡ steps.new.budget) × (steps.old.budget < steps.old.used + game_bound (setup_of game.now board.old.marks sides.Black left)) }
        ensures budget { steps.new.budget ≡ steps.old.budget }
        ensures used { (steps.old.used ≤ steps.new.used) × (steps.new.used ≤ steps.old.used + game_bound (setup_of game.now board.old.marks sides.Black left)) }
        ensures size { (board.new.width ≡ board.old.width) × (board.new.height ≡ board.old.height) }
    {
        if left == 0 {
            return Ok(Made::Lost);
        }
        match first_move(alloc, game, board, left, decider, steps)? {
            FirstMove::Move(mv) => {
                self.add_black(game, board, left, mv)?;
                Ok(Made::Node)
            }
            FirstMove::Lost => Ok(Made::Lost),
            FirstMove::Spent => Ok(Made::Spent),
        }
    }

    // Makes all moves of White the next node: from the board of its place, where White is to move.
    fn white_node(
        &mut self,
        alloc: Global,
        game: &Game,
        board: &mut Board,
        number: u64,
    ) -> Result<(), NoMemory>
        requires size { IsBoardOf game.now board.old }
        requires number { number < length self.old.places }
        requires place { (p : Place) → slice_get self.old.places number ≡ Some p → AwaitsWhite game.now board.old.marks p }
        ensures node { OnOk result ((p : Place) → slice_get self.old.places number ≡ Some p → (node : declared_node.Node)
            × Adds game.now p node self.old self.new × IsNodeAt game.now p node) }
        ensures size { (board.new.width ≡ board.old.width) × (board.new.height ≡ board.old.height) }
    {
        board.keeps_the_size();
        let mut list = MoveList::for_game(alloc, game)?;
        moves_into(game, board, Side::White, &mut list);
        let replies = replies(
            alloc,
            &mut self.places,
            game,
            board,
            number,
            list.as_slice(),
        )?;
        self.nodes.push(Node::White { replies })
    }

    /// Makes the node of the first place that has none, with `board` as the room for its board. A step
    /// is taken for it, and those of a search where Black is to move.
    pub fn add_node(
        &mut self,
        alloc: Global,
        game: &Game,
        board: &mut Board,
        decider: &mut Box<dyn Decider>,
        steps: &mut Steps,
    ) -> Result<Made, NoMemory>
        requires size { IsBoardOf game.now board.old }
        requires number { length self.old.nodes < length self.old.places }
        requires place { (p : Place) → slice_get self.old.places (length self.old.nodes) ≡ Some p → AwaitsNode game.now p }
        ensures made { result ≡ Ok Made.Node → (p : Place) → slice_get self.old.places (length self.old.nodes) ≡ Some p
            → (node : declared_node.Node) × Adds game.now p node self.old self.new × IsNodeAt game.now p node }
        ensures lost { result ≡ Ok Made.Lost → (p : Place) → slice_get self.old.places (length self.old.nodes) ≡ Some p → win game.now p.side p.board p.left ≡ false }
        ensures spent { result ≡ Ok Made.Spent → (p : Place) → slice_get self.old.places (length self.old.nodes) ≡ Some p
            → (steps.new.used ≡ steps.new.budget) × (steps.old.budget < steps.old.used + 1 + search_at game.now p) }
        ensures budget { steps.new.budget ≡ steps.old.budget }
        ensures used { (p : Place) → slice_get self.old.places (length self.old.nodes) ≡ Some p
            → (steps.old.used ≤ steps.new.used) × (steps.new.used ≤ steps.old.used + 1 + search_at game.now p) }
        ensures step { result ≡ Ok Made.Node → steps.old.used < steps.new.used }
        ensures size { (board.new.width ≡ board.old.width) × (board.new.height ≡ board.old.height) }
    {
        if !steps.tick() {
            return Ok(Made::Spent);
        }
        let number = self.nodes.as_slice().len() as u64;
        board.keeps_the_size();
        let (side, left) = self.places.go_to(number, board);
        if goal(game, board, Side::Black) {
            self.nodes.push(Node::Goal)?;
            return Ok(Made::Node);
        }
        match side {
            Side::Black => self.black_node(alloc, game, board, left, decider, steps),
            Side::White => {
                self.white_node(alloc, game, board, number)?;
                Ok(Made::Node)
            }
        }
    }
}
