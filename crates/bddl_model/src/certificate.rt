ghost use Rattle.std.specs.Prelude.{◌≡◌};
ghost use Rattle.bddl_model.specs.declared.certificate.CertFault.TheVariants.{NoMemory as check_out_of_memory};
ghost use Rattle.bddl_model.specs.declared.certificate.CertReadFault.TheVariants.{NoMemory as read_out_of_memory};
ghost use Rattle.bddl_model.specs.Certificate.{at_node};

use crate::{Items, Move, NoMemory};
use std::alloc::{AllocError, AllocFailed};

/// The number of a node of a certificate, from 0 on.
#[derive(Clone, Copy, Debug, Default, PartialEq, Eq, PartialOrd, Ord, Hash)]
pub struct NodeNo(pub u64);

/// A move, and the node that follows it.
#[derive(Clone, Copy, Debug, PartialEq, Eq)]
pub struct Answered {
    pub mv: Move,
    pub next: NodeNo,
}

pub type ReplyList = Items<Answered>;

/// A node of a strategy of Black: its goal stands; it makes this move; or White may make any of
/// these moves.
#[derive(Debug, Drop)]
pub enum Node {
    Goal,
    Black { mv: Move, next: NodeNo },
    White { replies: ReplyList },
}

/// The nodes of a strategy. Node 0 is its root.
pub type Cert = Items<Node>;

/// What is wrong with the move of a node, or with its replies, at the place of the node.
#[derive(Clone, Copy, Debug, PartialEq, Eq)]
pub enum TurnFault {
    WrongSide,
    WhiteGoalStands,
    PliesSpent,
    IllegalMove,
    /// The side that may make any move has none.
    Stuck,
    /// From this reply on, counted from 0, the replies aren't the legal moves.
    RepliesDiffer { place: u64 },
}

/// What is wrong with a certificate, with the node at which it is wrong.
#[derive(Clone, Copy, Debug, PartialEq, Eq)]
pub enum CertFault {
    /// The node is named from two nodes or replies that lead to two places.
    TwoPlaces { node: u64 },
    WrongSide { node: u64 },
    WhiteGoalStands { node: u64 },
    PliesSpent { node: u64 },
    IllegalMove { node: u64 },
    GoalDoesNotStand { node: u64 },
    Stuck { node: u64 },
    RepliesDiffer { node: u64, place: u64 },
    NoMemory,
}

impl CertFault {
    /// The fault of a turn, at this node.
    pub fn at_node(node: u64, fault: TurnFault) -> CertFault
        ensures { result ≡ at_node node fault }
    {
        match fault {
            TurnFault::WrongSide => CertFault::WrongSide { node },
            TurnFault::WhiteGoalStands => CertFault::WhiteGoalStands { node },
            TurnFault::PliesSpent => CertFault::PliesSpent { node },
            TurnFault::IllegalMove => CertFault::IllegalMove { node },
            TurnFault::Stuck => CertFault::Stuck { node },
            TurnFault::RepliesDiffer { place } => CertFault::RepliesDiffer { node, place },
        }
    }
}

impl From<AllocError> for CertFault {
    ghost from_gives = { λ _ e. e ≡ check_out_of_memory };

    fn from(_: AllocError) -> Self {
        CertFault::NoMemory
    }
}

impl<T: Drop> From<AllocFailed<T>> for CertFault {
    ghost from_gives = { λ _ e. e ≡ check_out_of_memory };

    fn from(_: AllocFailed<T>) -> Self {
        CertFault::NoMemory
    }
}

impl From<NoMemory> for CertFault {
    ghost from_gives = { λ _ e. e ≡ check_out_of_memory };

    fn from(_: NoMemory) -> Self {
        CertFault::NoMemory
    }
}

/// Why a text is no certificate. Nodes count from 0, in the order of their lines.
#[derive(Clone, Copy, Debug, PartialEq, Eq)]
pub enum CertReadFault {
    NotHeader,
    /// What should be the line of the node is none.
    NotALine { node: u64 },
    /// The text ends where the node is due.
    EndsEarly { node: u64 },
    /// A next node isn't later than the node, or isn't in the list.
    BadNext { node: u64 },
    /// Behind the last node, which is the one before this, the text goes on.
    Unused { node: u64 },
    /// No line names the node.
    NotReached { node: u64 },
    /// The text ends well, and has another number of nodes than its header says.
    CountDiffers { said: u64, found: u64 },
    NoMemory,
}

impl From<AllocError> for CertReadFault {
    ghost from_gives = { λ _ e. e ≡ read_out_of_memory };

    fn from(_: AllocError) -> Self {
        CertReadFault::NoMemory
    }
}

impl<T: Drop> From<AllocFailed<T>> for CertReadFault {
    ghost from_gives = { λ _ e. e ≡ read_out_of_memory };

    fn from(_: AllocFailed<T>) -> Self {
        CertReadFault::NoMemory
    }
}

impl From<NoMemory> for CertReadFault {
    ghost from_gives = { λ _ e. e ≡ read_out_of_memory };

    fn from(_: NoMemory) -> Self {
        CertReadFault::NoMemory
    }
}
