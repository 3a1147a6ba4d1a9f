// What is wrong with a node of Black's strategy at its place.
ghost use Rattle.std.specs.Prelude.{◌≡◌, ◌≤◌, ◌*◌, length};
ghost use Rattle.bddl_model.specs.declared.game.Side.{Side as SomeSide};
ghost use Rattle.bddl_model.specs.Certificate.{turn_at, node_fault};
ghost use Rattle.bddl_model.specs.Game.{actions};
ghost use Rattle.bddl_model.specs.Limits.{IsBoardOf};
ghost use Rattle.cert_checker.specs.Places.{place_at};

use crate::turn::{Turn, move_fault, replies_fault};
use bddl_model::{CertFault, Node, Side, TurnFault};
use grid_game::{Board, Game, MoveList, goal};

/// What is wrong with the node of this number, on this board and at this turn.
pub fn node_fault(
    game: &Game,
    number: u64,
    board: &Board,
    turn: Turn,
    node: &Node,
    moves: &mut MoveList,
) -> Option<CertFault>
    requires size { IsBoardOf game.now board.now }
    requires room { (side : SomeSide) → length (actions game.now side) * game.now.width * game.now.height ≤ moves.old.room }
    ensures fault { result ≡ node_fault game.now number (place_at turn board.now.marks) node.now }
    ensures room { moves.new.room ≡ moves.old.room }
{
    match node {
        Node::Goal => {
            if goal(game, board, Side::Black) {
                None
            } else {
                Some(CertFault::GoalDoesNotStand { node: number })
            }
        }
        Node::Black { mv, .. } => move_fault(game, board, turn, Side::Black, *mv).map(
            |fault| CertFault::at_node(number, fault),
        ),
        Node::White { replies } => {
            replies_fault(game, board, turn, Side::White, replies.as_slice(), moves).map(
                |fault| CertFault::at_node(number, fault),
            )
        }
    }
}
