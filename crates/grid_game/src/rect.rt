// The anchors that fit.
ghost use Rattle.std.specs.Prelude.{◌≡◌, ◌≤◌, ◌++◌, ℕ, false, None, max, min, IfSome};
ghost use Rattle.bddl_model.specs.Fitting.{fits};
ghost use Rattle.bddl_model.specs.Game.{test_atoms};
ghost use Rattle.bddl_model.specs.Rectangle as spec;
ghost use Rattle.grid_game.specs.Narrowed.{IsInside, IsNarrowed};

use bddl_model::{Atom, Rect, Term, Test};

fn least_for(term: Term) -> u32
    ensures { result ≡ spec.least_for term }
{
    match term {
        Term::Rel(shift) if shift < 0 => 1 + shift.unsigned_abs(),
        Term::Rel(_) | Term::Abs(_) => 1,
    }
}

fn greatest_for(side: u32, term: Term) -> u32
    ensures { result ≡ spec.greatest_for side term }
{
    match term {
        Term::Rel(shift) if shift < 0 => side,
        Term::Rel(shift) => side.saturating_sub(shift.unsigned_abs()),
        Term::Abs(number) if 1 <= number && number <= side => side,
        Term::Abs(_) => 0,
    }
}

// The anchors of a rectangle from which the atom's terms lead to a cell of the board too.
fn narrowed(rect: Rect, width: u32, height: u32, atom: Atom) -> Rect
    ensures { result ≡ record {
      x_low = max rect.x_low (spec.least_for atom.x);
      x_high = min rect.x_high (spec.greatest_for width atom.x);
      y_low = max rect.y_low (spec.least_for atom.y);
      y_high = min rect.y_high (spec.greatest_for height atom.y);
    } }
{
    Rect {
        x_low: rect.x_low.max(least_for(atom.x)),
        x_high: rect.x_high.min(greatest_for(width, atom.x)),
        y_low: rect.y_low.max(least_for(atom.y)),
        y_high: rect.y_high.min(greatest_for(height, atom.y)),
    }
}

// Those from which the atoms of all tests do. The rectangle may be empty.
fn narrowed_by_tests(rect: Rect, width: u32, height: u32, tests: &[Test]) -> Rect
    requires { IsInside width height rect }
    ensures { IsNarrowed width height rect (test_atoms tests.now) result }
{
    let mut left = rect;
    for test in tests {
        left = narrowed(left, width, height, test.atom);
    }
    left
}

// Those from which all effects do. The rectangle may be empty.
fn narrowed_by_effects(rect: Rect, width: u32, height: u32, effects: &[Atom]) -> Rect
    requires { IsInside width height rect }
    ensures { IsNarrowed width height rect effects.now result }
{
    let mut left = rect;
    for atom in effects {
        left = narrowed(left, width, height, *atom);
    }
    left
}

fn unless_empty(rect: Rect) -> Option<Rect>
    ensures { result ≡ spec.rect_between rect.x_low rect.x_high rect.y_low rect.y_high }
{
    if rect.x_low <= rect.x_high && rect.y_low <= rect.y_high {
        return Some(rect);
    }
    None
}

/// The anchors at which the cells of the tests and of the effects lie on the board, the anchor itself
/// too, or none. On a board of the two sides.
pub fn rect_of(width: u32, height: u32, tests: &[Test], effects: &[Atom]) -> Option<Rect>
    ensures value { result ≡ spec.rect_of width height (test_atoms tests.now ++ effects.now) }
    ensures some { IfSome result (spec.IsRectOf width height (test_atoms tests.now ++ effects.now)) }
    ensures none { result ≡ None → (x y : ℕ) → fits width height (test_atoms tests.now ++ effects.now) x y ≡ false }
{
    let board = Rect {
        x_low: 1,
        x_high: width,
        y_low: 1,
        y_high: height,
    };
    let of_tests = narrowed_by_tests(board, width, height, tests);
    unless_empty(narrowed_by_effects(of_tests, width, height, effects))
}
