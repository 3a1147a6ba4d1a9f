// Boards.
ghost use Rattle.std.specs.Prelude.{◌≡◌, ◌≤◌, ◌<◌, ◌*◌, true, length, IfOk};
ghost use Rattle.bddl_model.specs.Board as spec;
ghost use Rattle.bddl_model.specs.Certificate.{same_board};
ghost use Rattle.bddl_model.specs.Game.{greatest_side};
ghost use Rattle.bddl_model.specs.Fitting.{on_side};
ghost use Rattle.bddl_model.specs.Limits.{IsSide, IsBoard};

use bddl_model::{Mark, NoMemory};
use std::alloc::Global;
use std::marker::Model;

/// A board of at most 64 by 64. Contracts see its two sides and its marks, row after row.
#[derive(Debug, Drop)]
pub struct Board {
    width: u32,
    height: u32,
    marks: Vec<Mark>,
}

impl Model for Board {
    ghost use Rattle.bddl_model.specs.Board.{SizedBoard};
    ghost use Rattle.bddl_model.specs.Limits.{IsBoard};

    ghost Value = { SizedBoard };

    ghost view = { λ b. record { width = b.width; height = b.height; marks = b.marks.items } };

    ghost invariant = { λ b. IsBoard (record { width = b.width; height = b.height; marks = b.marks.items }) };
}

// Where a cell stands in the list.
fn index(width: u32, height: u32, x: u32, y: u32) -> usize
    requires sides { (width ≤ greatest_side) × (height ≤ greatest_side) }
    requires column { on_side width x ≡ true }
    requires row { on_side height y ≡ true }
    ensures place { result ≡ spec.index width x y }
    ensures within { result < height * width }
{
    ((y - 1) * width + (x - 1)) as usize
}

impl Board {
    /// With all cells open.
    pub fn free(alloc: Global, width: u32, height: u32) -> Result<Board, NoMemory>
        requires width { IsSide width }
        requires height { IsSide height }
        ensures { IfOk result (λ b. b ≡ record { width = width; height = height; marks = spec.open_board width height }) }
    {
        let marks = vec![in alloc; Mark::Free; (height * width) as usize]?;
        Ok(Board {
            width,
            height,
            marks,
        })
    }

    /// A law: a board has a mark for each cell.
    pub fn keeps_the_size(&self)
        ensures { IsBoard self.now }
    {
        let _ = &self.width;
    }

    pub fn width(&self) -> u32
        ensures value { result ≡ self.now.width }
        ensures limit { IsSide result }
    {
        self.width
    }

    pub fn height(&self) -> u32
        ensures value { result ≡ self.now.height }
        ensures limit { IsSide result }
    {
        self.height
    }

    /// Writes the mark of a cell.
    pub fn set(&mut self, x: u32, y: u32, mark: Mark)
        requires column { on_side self.old.width x ≡ true }
        requires row { on_side self.old.height y ≡ true }
        ensures { self.new ≡ record self.old { marks = spec.with_mark self.old.width self.old.marks x y mark } }
    {
        let place = index(self.width, self.height, x, y);
        self.marks[place] = mark;
    }

    /// The mark of a cell.
    pub fn at(&self, x: u32, y: u32) -> Mark
        requires column { on_side self.now.width x ≡ true }
        requires row { on_side self.now.height y ≡ true }
        ensures { result ≡ spec.mark_at self.now.width self.now.marks x y }
    {
        self.marks[index(self.width, self.height, x, y)]
    }

    /// The marks, row after row.
    pub fn marks(&self) -> &[Mark]
        ensures { result.now ≡ self.now.marks }
    {
        &self.marks
    }

    /// Puts these marks in the place of all, row after row.
    pub fn set_marks(&mut self, marks: &[Mark])
        requires { length marks.now ≡ self.old.height * self.old.width }
        ensures { self.new ≡ record self.old { marks = marks.now } }
    {
        self.marks.copy_from_slice(marks);
    }

    /// A board of its own with the same marks.
    pub fn copy(&self) -> Result<Board, NoMemory>
        ensures { IfOk result (λ b. b ≡ self.now) }
    {
        Ok(Board {
            width: self.width,
            height: self.height,
            marks: self.marks.clone()?,
        })
    }

    /// Takes over the marks of a board with the same sides.
    pub fn copy_from(&mut self, other: &Board)
        requires { (self.old.width ≡ other.now.width) × (self.old.height ≡ other.now.height) }
        ensures { self.new ≡ other.now }
    {
        self.marks.copy_from_slice(&other.marks);
    }

    /// Whether the marks of two boards are the same.
    pub fn same_marks(&self, other: &Board) -> bool
        ensures { result ≡ same_board self.now.marks other.now.marks }
    {
        self.marks == other.marks
    }
}
