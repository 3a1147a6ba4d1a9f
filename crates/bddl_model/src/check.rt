// What is wrong with a game that two texts state.

ghost use Rattle.std.specs.Prelude.{◌≡◌};
ghost use Rattle.bddl_model.specs.declared.check.CheckFault.TheVariants.{NoMemory as out_of_memory};

use crate::{NoMemory, Side};

/// One of the things that a game is made of. Numbers count from 1 in the order of the text.
#[derive(Clone, Copy, Debug, PartialEq, Eq)]
pub enum Item {
    Action { side: Side, number: u32 },
    Init { number: u32 },
    Line { side: Side, number: u32 },
}

#[derive(Clone, Copy, Debug, PartialEq, Eq)]
pub enum Axis {
    Width,
    Height,
}

/// The part of an item that has tests or atoms.
#[derive(Clone, Copy, Debug, PartialEq, Eq)]
pub enum Part {
    Before,
    Effects,
    Line,
}

/// The first thing that is wrong with a game. What was found or said is as the text has it.
#[derive(Clone, Copy, Debug, PartialEq, Eq)]
pub enum CheckFault {
    SizeOutOfRange { axis: Axis, said: u32 },
    DepthOutOfRange { said: u32 },
    TooManyActions { side: Side, found: u64 },
    TooManyAtoms { item: Item, part: Part, found: u64 },
    /// `earlier` is the first action of the side with the name.
    SameName { item: Item, earlier: u32 },
    NumberOffBoard { item: Item, said: u32 },
    NeverOnBoard { item: Item },
    CellTwice { item: Item, x: u32, y: u32 },
    TooManyLines { side: Side, found: u64 },
    NoMemory,
}

impl From<NoMemory> for CheckFault {
    ghost from_gives = { λ _ e. e ≡ out_of_memory };

    fn from(_: NoMemory) -> Self {
        CheckFault::NoMemory
    }
}
