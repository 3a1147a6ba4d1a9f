// What domain and problem files say, before any check.

use crate::{Items, Mark, Side};

/// A coordinate as it is written: `?x+1`, `3`, `xmin`, `xmax`.
#[derive(Clone, Copy, Debug, PartialEq, Eq)]
pub enum TermText {
    Shift(i32),
    Number(u32),
    Least,
    Greatest,
}

/// A mark at a cell that is named from the anchor or by fixed numbers.
#[derive(Clone, Copy, Debug, PartialEq, Eq)]
pub struct AtomText {
    pub mark: Mark,
    pub x: TermText,
    pub y: TermText,
}

/// What is asked of a cell: that it has the atom's mark, or, negated, that it has another.
#[derive(Clone, Copy, Debug, PartialEq, Eq)]
pub struct TestText {
    pub atom: AtomText,
    pub negated: bool,
}

/// The mark of one cell of the start board.
#[derive(Clone, Copy, Debug, PartialEq, Eq)]
pub struct InitAtom {
    pub mark: Mark,
    pub x: u32,
    pub y: u32,
}

/// The bytes of a name.
pub type NameText = Items<u8>;

pub type AtomList = Items<AtomText>;

pub type TestList = Items<TestText>;

/// Goal lines.
pub type LineList = Items<TestList>;

pub type ActionList = Items<ActionText>;

pub type InitList = Items<InitAtom>;

/// An action: what must hold before it, and what it writes, in order.
#[derive(Debug, Drop)]
pub struct ActionText {
    pub name: NameText,
    pub before: TestList,
    pub effects: AtomList,
}

/// Both sides' actions.
#[derive(Debug, Drop)]
pub struct DomainText {
    pub black: ActionList,
    pub white: ActionList,
}

/// A start board, a depth in plies, the side that moves first, and both sides' goal lines.
#[derive(Debug, Drop)]
pub struct ProblemText {
    pub width: u32,
    pub height: u32,
    pub init: InitList,
    pub depth: u32,
    pub first: Side,
    pub black: LineList,
    pub white: LineList,
}

/// A place in a text. Lines count from 1, columns in bytes from 1.
#[derive(Clone, Copy, Debug, PartialEq, Eq)]
pub struct Place {
    pub line: u32,
    pub column: u32,
}
