// The least node at the place of each node.
ghost use Rattle.std.specs.Prelude.{◌≡◌, ◌<◌, ◌≤◌, [], ◌∷◌, true, length, slice_get, map, replicate, All, Some, IfOk, OnOk};
ghost use Rattle.bddl_model.specs.Certificate.{Place, valid, start, behind};
ghost use Rattle.bddl_model.specs.CertificateGraph.{answers};
ghost use Rattle.bddl_model.specs.Limits.{IsBoardOf};
ghost use Rattle.cert_checker.specs.Checking.{IsAnswer};
ghost use Rattle.cert_checker.specs.LeastNodes.{AreLeast};
ghost use Rattle.cert_checker.specs.Placing.{of_node, least_at, Lowers, Stands, AllStand, AreFound};
ghost use Rattle.place_set.specs.Places.{place_at, HasSize};

use bddl_model::{Answered, NoMemory, Node, Side};
use grid_game::{Board, apply};
use offset_check::Setup;
use place_set::PlaceSet;
use std::alloc::Global;

/// The places that were met, the number of each node's place, and the least node that was found at each
/// place.
#[derive(Debug, Drop)]
pub struct Placing {
    pub places: PlaceSet,
    pub of: Vec<u64>,
    pub least: Vec<u64>,
}

// Keeps the lesser of the nodes that stand at a place, which may be the next one.
fn keep_least(least: &mut Vec<u64>, place: u64, node: u64) -> Result<(), NoMemory>
    requires { place ≤ length least.old.items }
    ensures { OnOk result (Lowers least.old.items place node least.new.items) }
{
    let place = place as usize;
    if place < least.len() {
        if node < least[place] {
            least[place] = node;
        }
        return Ok(());
    }
    least.push(node)?;
    Ok(())
}

impl Placing {
    // With node 0 at the start, for so many nodes.
    fn of_start(alloc: Global, setup: &Setup, count: usize) -> Result<Placing, NoMemory>
        ensures places { IfOk result (λ t. t.places ≡ start setup.now ∷ []) }
        ensures numbers { IfOk result (λ t. t.of.items ≡ replicate count 0) }
        ensures least { IfOk result (λ t. t.least.items ≡ 0 ∷ []) }
    {
        let mut places = PlaceSet::new(alloc);
        places.number(setup.first, &setup.board, setup.depth)?;
        Ok(Placing {
            places,
            of: vec![in alloc; 0; count]?,
            least: vec![in alloc; 0]?,
        })
    }

    // The node stands at this place.
    fn stand(&mut self, node: u64, side: Side, board: &Board, left: u32) -> Result<(), NoMemory>
        requires inside { node < length self.old.of.items }
        requires same { length self.old.least.items ≡ length self.old.places }
        ensures { OnOk result (Stands self.old node (place_at side board.now left) self.new) }
    {
        let place = self.places.number(side, board, left)?;
        keep_least(&mut self.least, place, node)?;
        self.of[node as usize] = place;
        Ok(())
    }

    // The next node of an answer of the node stands behind it.
    fn follow(
        &mut self,
        setup: &Setup,
        room: &mut Board,
        node: u64,
        answer: Answered,
    ) -> Result<(), NoMemory>
        requires size { IsBoardOf setup.now.game room.old }
        requires inside { node < length self.old.of.items }
        requires same { length self.old.least.items ≡ length self.old.places }
        requires number { of_node self.old node < length self.old.places }
        requires board { HasSize room.old self.old.places (of_node self.old node) }
        requires answer { (p : Place) → slice_get self.old.places (of_node self.old node) ≡ Some p → IsAnswer setup.now (length self.old.of.items) node p answer }
        ensures stands { OnOk result ((p : Place) → slice_get self.old.places (of_node self.old node) ≡ Some p → Stands self.old answer.next.0 (behind setup.now.game p answer.mv) self.new) }
        ensures size { IsBoardOf setup.now.game room.new }
    {
        let (side, left) = self.places.go_to(self.of[node as usize], room);
        apply(&setup.game, room, side, answer.mv);
        self.stand(answer.next.0, side.opponent(), room, left - 1)
    }

    fn follow_all(
        &mut self,
        setup: &Setup,
        room: &mut Board,
        node: u64,
        answers: &[Answered],
    ) -> Result<(), NoMemory>
        requires size { IsBoardOf setup.now.game room.old }
        requires inside { node < length self.old.of.items }
        requires same { length self.old.least.items ≡ length self.old.places }
        requires number { of_node self.old node < length self.old.places }
        requires board { HasSize room.old self.old.places (of_node self.old node) }
        requires answers { (p : Place) → slice_get self.old.places (of_node self.old node) ≡ Some p → All (IsAnswer setup.now (length self.old.of.items) node p) answers.now }
        ensures stands { OnOk result ((p : Place) → slice_get self.old.places (of_node self.old node) ≡ Some p → AllStand setup.now.game p answers.now self.old self.new) }
        ensures size { IsBoardOf setup.now.game room.new }
    {
        for answer in answers {
            self.follow(setup, room, node, *answer)?;
        }
        Ok(())
    }

    // The next nodes of the node stand behind its answers.
    fn follow_node(
        &mut self,
        setup: &Setup,
        room: &mut Board,
        number: u64,
        node: &Node,
    ) -> Result<(), NoMemory>
        requires size { IsBoardOf setup.now.game room.old }
        requires inside { number < length self.old.of.items }
        requires same { length self.old.least.items ≡ length self.old.places }
        requires number { of_node self.old number < length self.old.places }
        requires board { HasSize room.old self.old.places (of_node self.old number) }
        requires answers { (p : Place) → slice_get self.old.places (of_node self.old number) ≡ Some p → All (IsAnswer setup.now (length self.old.of.items) number p) (answers node.now) }
        ensures stands { OnOk result ((p : Place) → slice_get self.old.places (of_node self.old number) ≡ Some p → AllStand setup.now.game p (answers node.now) self.old self.new) }
        ensures size { IsBoardOf setup.now.game room.new }
    {
        match node {
            Node::Goal => Ok(()),
            Node::Black { mv, next } => {
                let answer = Answered {
                    mv: *mv,
                    next: *next,
                };
                self.follow_all(setup, room, number, &[answer])
            }
            Node::White { replies } => self.follow_all(setup, room, number, replies.as_slice()),
        }
    }
}

// The places of all nodes.
fn place_all(alloc: Global, setup: &Setup, nodes: &[Node]) -> Result<Placing, NoMemory>
    requires valid { valid setup.now nodes.now ≡ true }
    ensures { IfOk result (λ t. AreFound setup.now nodes.now t (length nodes.now)) }
{
    setup.keeps_its_size();
    let mut placing = Placing::of_start(alloc, setup, nodes.len())?;
    let mut room = setup.board.copy()?;
    for (number, node) in nodes.iter().enumerate() {
        placing.follow_node(setup, &mut room, number as u64, node)?;
    }
    Ok(placing)
}

// The least node at the place of each node.
fn least_of_each(alloc: Global, placing: &Placing) -> Result<Vec<u64>, NoMemory>
    requires { All (λ n. n < length placing.now.least.items) placing.now.of.items }
    ensures { IfOk result (λ all. all.items ≡ map (least_at placing.now) placing.now.of.items) }
{
    let mut all = Vec::new(alloc);
    for place in placing.of.iter() {
        all.push(placing.least[*place as usize])?;
    }
    Ok(all)
}

/// The least node at the place of each node of a valid certificate, in the order of nodes.
pub fn least_nodes(alloc: Global, setup: &Setup, nodes: &[Node]) -> Result<Vec<u64>, NoMemory>
    requires valid { valid setup.now nodes.now ≡ true }
    ensures { IfOk result (λ least. AreLeast setup.now nodes.now least.items) }
{
    let placing = place_all(alloc, setup, nodes)?;
    placing.places.keeps_places_apart();
    let least = least_of_each(alloc, &placing)?;
    Ok(least)
}
