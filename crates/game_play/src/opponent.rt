// Who answers for White.
ghost use Rattle.std.specs.Prelude.{◌≡◌, ◌<◌, ℕ, Bool, [], List, Option, length, IsTrue};
ghost use Rattle.game_play.specs.Replies.{is_gone, said_after, Follows, IsShown};
ghost use Rattle.io_edge.specs.Outside.{Counts};

use bddl_model::Move;
use grid_game::Board;

/// An answer for White: the number of a move, as it was shown, or none any more.
#[derive(Clone, Copy, Debug, PartialEq, Eq)]
pub enum Reply {
    Choice(u64),
    Gone,
}

/// Who answers for White.
pub trait Opponent: Drop {
    /// How often no answer came, because something outside failed.
    ghost count: { Self → ℕ };

    /// The number of the last start.
    ghost began: { Self → ℕ };

    /// The numbers that were answered since then.
    ghost said: { Self → List ℕ };

    /// Whether each answer is a number that was shown.
    ghost steady: { Self → Bool };

    /// The numbers that are still to be answered, where they are told.
    ghost left: { Self → Option (List ℕ) };

    /// A play begins. The number is that of the command line, by which a player may be set.
    fn start(&mut self, number: u64)
        ensures began { began self.new ≡ number }
        ensures said { said self.new ≡ [] }
        ensures count { count self.new ≡ count self.old }
        ensures steady { steady self.new ≡ steady self.old }
        ensures left { left self.new ≡ left self.old };

    /// Answers the number of one of these moves, which White may make on this board. There are 16 answers
    /// in a play at most.
    fn reply(&mut self, board: &Board, moves: &[Move]) -> Reply
        requires some { 0 < length moves.now }
        requires few { length (said self.old) < 16 }

        ensures began { began self.new ≡ began self.old }
        ensures said { said self.new ≡ said_after result (said self.old) }
        ensures count { Counts (count self.old) (count self.new) (is_gone result) }
        ensures left { Follows (left self.old) (left self.new) result }
        ensures stays { steady self.new ≡ steady self.old }
        ensures shown { IsTrue (steady self.old) → IsShown result (length moves.now) };
}
