// A side's actions.
ghost use Rattle.std.specs.Prelude.{◌≡◌, ◌≤◌, ◌<◌, ◌+◌, [], ◌∷◌, length, map, IfOk, OnOk};
ghost use Rattle.bddl_model.specs.Check.{actions_fault, action_fault, same_name, named_at};
ghost use Rattle.bddl_model.specs.Game as spec;
ghost use Rattle.bddl_model.specs.Setup.{action_of};
ghost use Rattle.offset_check.specs.Checks.{Checks, with_actions, AreNamed};

use crate::items::{check_fits, check_length};
use crate::terms::{atoms_of, check_atoms, check_tests, tests_of};
use bddl_model::{ActionText, CheckFault, Item, Part, Side};
use grid_game::Game;
use std::alloc::Global;

// No earlier action has the name.
fn check_name(item: Item, earlier: &[ActionText], name: &[u8]) -> Result<(), CheckFault>
    requires { length earlier.now ≤ 8 }
    ensures { Checks (same_name item (named_at 1 earlier.now name.now)) result }
{
    for (i, other) in earlier.iter().enumerate() {
        if other.name.as_slice() == name {
            return Err(CheckFault::SameName {
                item,
                earlier: i as u32 + 1,
            });
        }
    }
    Ok(())
}

// Adds an action that has no fault.
fn add_action(
    alloc: Global,
    game: &mut Game,
    side: Side,
    earlier: &[ActionText],
    action: &ActionText,
) -> Result<(), CheckFault>
    requires few { length earlier.now < 8 }
    requires so_many { length (spec.actions game.old side) ≡ length earlier.now }
    requires named { (1 ≤ length action.now.name) × (length action.now.name ≤ 32) }
    ensures checks { Checks (action_fault game.old.width game.old.height side earlier.now action.now) result }
    ensures added { OnOk result (game.new ≡ spec.with_action game.old side (action_of game.old.width game.old.height action.now)) }
{
    let item = Item::Action {
        side,
        number: earlier.len() as u32 + 1,
    };
    let (width, height) = (game.width(), game.height());
    let (before, effects) = (action.before.as_slice(), action.effects.as_slice());
    check_length(item, Part::Before, 8, before.len())?;
    check_length(item, Part::Effects, 4, effects.len())?;
    check_name(item, earlier, action.name.as_slice())?;
    check_tests(item, width, height, before)?;
    check_atoms(item, width, height, effects)?;
    let tests = tests_of(alloc, width, height, before)?;
    let atoms = atoms_of(alloc, width, height, effects)?;
    check_fits(item, width, height, &tests, &atoms)?;
    game.add_action(side, action.name.as_slice(), &tests, &atoms)?;
    Ok(())
}

/// Adds the actions of a side, which has none, if there is no fault.
pub fn add_actions(
    alloc: Global,
    game: &mut Game,
    side: Side,
    actions: &[ActionText],
) -> Result<(), CheckFault>
    requires named { AreNamed actions.now }
    requires none { spec.actions game.old side ≡ [] }
    ensures checks { Checks (actions_fault game.old.width game.old.height side actions.now) result }
    ensures added { OnOk result (game.new ≡ with_actions game.old side (map (action_of game.old.width game.old.height) actions.now)) }
{
    let found = actions.len();
    if found > 8 {
        return Err(CheckFault::TooManyActions {
            side,
            found: found as u64,
        });
    }
    for (i, action) in actions.iter().enumerate() {
        add_action(alloc, game, side, &actions[..i], action)?;
    }
    Ok(())
}
