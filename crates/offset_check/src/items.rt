// What is asked of each action and each goal line.
ghost use Rattle.std.specs.Prelude.{◌++◌, OnOk};
ghost use Rattle.bddl_model.specs.Check.{length_fault, never_fault};
ghost use Rattle.bddl_model.specs.Game.{test_atoms};
ghost use Rattle.bddl_model.specs.Limits.{FitsSomewhere};
ghost use Rattle.offset_check.specs.Checks.{Checks};

use bddl_model::{Atom, CheckFault, Item, Part, Test};
use grid_game::rect_of;

/// An item has at most so many tests or atoms in a part.
pub fn check_length(item: Item, part: Part, most: usize, found: usize) -> Result<(), CheckFault>
    ensures { Checks (length_fault item part most found) result }
{
    if found <= most {
        return Ok(());
    }
    Err(CheckFault::TooManyAtoms {
        item,
        part,
        found: found as u64,
    })
}

/// Some anchor fits the tests and the effects.
pub fn check_fits(
    item: Item,
    width: u32,
    height: u32,
    tests: &[Test],
    effects: &[Atom],
) -> Result<(), CheckFault>
    ensures checks { Checks (never_fault item width height (test_atoms tests.now ++ effects.now)) result }
    ensures fits { OnOk result (FitsSomewhere width height (test_atoms tests.now ++ effects.now)) }
{
    match rect_of(width, height, tests, effects) {
        Some(_) => Ok(()),
        None => Err(CheckFault::NeverOnBoard { item }),
    }
}
