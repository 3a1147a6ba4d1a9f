// A side's goal lines.
ghost use Rattle.std.specs.Prelude.{◌≡◌, ◌<◌, [], length, map, OnOk};
ghost use Rattle.bddl_model.specs.Check.{lines_fault, line_fault};
ghost use Rattle.bddl_model.specs.Game as spec;
ghost use Rattle.bddl_model.specs.Setup.{tests_of};
ghost use Rattle.offset_check.specs.Checks.{Checks, with_lines};

use crate::items::{check_fits, check_length};
use crate::terms::{check_tests, tests_of};
use bddl_model::{CheckFault, Item, Part, Side, TestList, TestText};
use grid_game::Game;
use std::alloc::Global;

// Adds a line that has no fault.
fn add_line(
    alloc: Global,
    game: &mut Game,
    side: Side,
    number: u32,
    tests: &[TestText],
) -> Result<(), CheckFault>
    requires few { length (spec.lines game.old side) < 256 }
    ensures checks { Checks (line_fault game.old.width game.old.height side number tests.now) result }
    ensures added { OnOk result (game.new ≡ spec.with_line game.old side (tests_of game.old.width game.old.height tests.now)) }
{
    let item = Item::Line { side, number };
    let (width, height) = (game.width(), game.height());
    check_length(item, Part::Line, 16, tests.len())?;
    check_tests(item, width, height, tests)?;
    let line = tests_of(alloc, width, height, tests)?;
    check_fits(item, width, height, &line, &[])?;
    game.add_line(side, &line)?;
    Ok(())
}

/// Adds the goal lines of a side, which has none, if there is no fault.
pub fn add_lines(
    alloc: Global,
    game: &mut Game,
    side: Side,
    lines: &[TestList],
) -> Result<(), CheckFault>
    requires { spec.lines game.old side ≡ [] }
    ensures checks { Checks (lines_fault game.old.width game.old.height side lines.now) result }
    ensures added { OnOk result (game.new ≡ with_lines game.old side (map (tests_of game.old.width game.old.height) lines.now)) }
{
    let found = lines.len();
    if found > 256 {
        return Err(CheckFault::TooManyLines {
            side,
            found: found as u64,
        });
    }
    for (i, line) in lines.iter().enumerate() {
        add_line(alloc, game, side, i as u32 + 1, line.as_slice())?;
    }
    Ok(())
}
