ghost use Rattle.std.specs.Prelude.{◌≡◌};
ghost use Rattle.bddl_model.specs.Game as game;

use crate::Span;

/// The most columns and the most rows of a board.
pub const GREATEST_SIDE: u32 = 64;

#[derive(Clone, Copy, Debug, PartialEq, Eq, Hash)]
pub enum Side {
    Black,
    White,
}

impl Side {
    /// The other side.
    pub fn opponent(self) -> Side
        ensures { result ≡ game.opponent self }
    {
        match self {
            Side::Black => Side::White,
            Side::White => Side::Black,
        }
    }
}

/// What a cell holds. `Free` is the mark of an open cell.
#[derive(Clone, Copy, Debug, PartialEq, Eq, Hash)]
pub enum Mark {
    Free,
    Black,
    White,
}

/// A coordinate: a shift from the anchor's, or a fixed number. Those of the board count from 1.
#[derive(Clone, Copy, Debug, PartialEq, Eq)]
pub enum Term {
    Rel(i32),
    Abs(u32),
}

/// A mark at a cell that is named from the anchor or by fixed numbers.
#[derive(Clone, Copy, Debug, PartialEq, Eq)]
pub struct Atom {
    pub mark: Mark,
    pub x: Term,
    pub y: Term,
}

/// What is asked of a cell: that it has the atom's mark, or, negated, that it has another.
#[derive(Clone, Copy, Debug, PartialEq, Eq)]
pub struct Test {
    pub atom: Atom,
    pub negated: bool,
}

/// An action of a side, counted from 0, at an anchor, counted from 1.
#[derive(Clone, Copy, Debug, PartialEq, Eq)]
pub struct Move {
    pub action: u32,
    pub x: u32,
    pub y: u32,
}

/// Where the bits of a ply stand among the inputs: those of the move, and before them, at a ply of
/// White, those of a sample, which shows that White has a legal move.
#[derive(Clone, Copy, Debug, PartialEq, Eq)]
pub struct PlyBits {
    pub side: Side,
    pub sample: Span,
    pub code: Span,
}

/// Anchors: those of the columns and rows between these, the ends included.
#[derive(Clone, Copy, Debug, PartialEq, Eq)]
pub struct Rect {
    pub x_low: u32,
    pub x_high: u32,
    pub y_low: u32,
    pub y_high: u32,
}
