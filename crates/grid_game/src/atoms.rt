// Atoms and tests on a board.
ghost use Rattle.std.specs.Prelude.{◌≡◌, ◌≤◌, true};
ghost use Rattle.std.specs.List.{list_all};
ghost use Rattle.bddl_model.specs.Game.{greatest_side, test_atoms};
ghost use Rattle.bddl_model.specs.Fitting.{led, on_board, passes, test_holds};

use crate::board::Board;
use bddl_model::{Mark, Term, Test};

/// The number that a term leads to from the anchor's; 0 stands for all that lie before the board.
pub fn led(term: Term, n: u32) -> u32
    requires { n ≤ greatest_side }
    ensures { result ≡ led term n }
{
    match term {
        Term::Rel(shift) if shift < 0 => n.saturating_sub(shift.unsigned_abs()),
        Term::Rel(shift) => n + shift.unsigned_abs(),
        Term::Abs(number) => number,
    }
}

// Whether a mark is the one that the test asks for, or, where it is negated, another.
fn passes(mark: Mark, test: &Test) -> bool
    ensures { result ≡ passes mark test.now }
{
    (mark == test.atom.mark) != test.negated
}

/// Whether the test holds at its cell, which is on the board.
pub fn test_holds(board: &Board, x: u32, y: u32, test: &Test) -> bool
    requires anchor { (x ≤ greatest_side) × (y ≤ greatest_side) }
    requires cell { on_board board.now.width board.now.height x y test.now.atom ≡ true }
    ensures { result ≡ test_holds board.now.width board.now.marks x y test.now }
{
    let atom = test.atom;
    passes(board.at(led(atom.x, x), led(atom.y, y)), test)
}

/// Whether each test holds at its cell, all of which are on the board.
pub fn all_hold(board: &Board, x: u32, y: u32, tests: &[Test]) -> bool
    requires anchor { (x ≤ greatest_side) × (y ≤ greatest_side) }
    requires cells { list_all (on_board board.now.width board.now.height x y) (test_atoms tests.now) ≡ true }
    ensures { result ≡ list_all (test_holds board.now.width board.now.marks x y) tests.now }
{
    for test in tests {
        if !test_holds(board, x, y, test) {
            return false;
        }
    }
    true
}
