// Marks of numbers.
ghost use Rattle.std.specs.Prelude.{◌≡◌, ◌<◌, true, false, length, slice_set, slice_index_or, IfOk};
ghost use Rattle.qdimacs_io.specs.MarkSets.{table, no_mark};

use bddl_model::NoMemory;
use std::alloc::Global;
use std::marker::Model;

/// The marks of the numbers below a limit. Contracts see them as a list.
#[derive(Debug, Drop)]
pub struct Marks {
    marks: Vec<bool>,
}

impl Model for Marks {
    ghost use Rattle.std.specs.Prelude.{List, Bool};

    ghost Value = { List Bool };

    ghost view = { λ m. m.marks.items };
}

impl Marks {
    /// No number is marked.
    pub fn new(alloc: Global, limit: usize) -> Result<Marks, NoMemory>
        ensures { IfOk result (λ m. m ≡ table limit no_mark) }
    {
        Ok(Marks {
            marks: vec![in alloc; false; limit]?,
        })
    }

    pub fn has(&self, number: usize) -> bool
        requires { number < length self.now }
        ensures { result ≡ slice_index_or self.now number false }
    {
        self.marks[number]
    }

    pub fn add(&mut self, number: usize)
        requires { number < length self.old }
        ensures { self.new ≡ slice_set self.old number true }
    {
        self.marks[number] = true;
    }

    pub fn remove(&mut self, number: usize)
        requires { number < length self.old }
        ensures { self.new ≡ slice_set self.old number false }
    {
        self.marks[number] = false;
    }
}
