// Clauses, their literals in one list.
ghost use Rattle.std.specs.Prelude.{◌≡◌, ◌<◌, ◌≤◌, ◌-◌, [], ◌∷◌, ◌++◌, length, take, drop, IfOk, OnOk, OnErr, slice_index_or};
ghost use Rattle.qbf_form.specs.Stored.{cut, start_from, EndsAt};

use bddl_model::{Lit, NoMemory};
use std::alloc::Global;
use std::marker::Model;

/// Clauses in the order of adding, each with its literals in the order in which they were given.
/// Contracts see the list of these lists. Millions of short ones take little more than their
/// literals.
#[derive(Debug, Drop)]
pub struct Clauses {
    // The literals of all clauses, one clause behind the other.
    literals: Vec<Lit>,
    // Where each clause ends among the literals.
    ends: Vec<usize>,
}

impl Model for Clauses {
    ghost use Rattle.std.specs.Prelude.{List, length};
    ghost use Rattle.bddl_model.specs.declared.formula.Lit.{Lit};
    ghost use Rattle.qbf_form.specs.Stored.{cut, EndsAt};

    ghost Value = { List (List Lit) };

    ghost view = { λ c. cut 0 c.ends.items c.literals.items };

    ghost invariant = { λ c. EndsAt (length c.literals.items) 0 c.ends.items };
}

// Where a clause starts: where the one before it ends.
fn start_of(ends: &[usize], number: usize) -> usize
    requires { number < length ends.now }
    ensures { result ≡ start_from 0 ends.now number }
{
    if number == 0 { 0 } else { ends[number - 1] }
}

// The literals from a start up to an end.
fn part(literals: &[Lit], start: usize, end: usize) -> &[Lit]
    requires order { start ≤ end }
    requires within { end ≤ length literals.now }
    ensures { result.now ≡ take (end - start) (drop start literals.now) }
{
    &literals[start..end]
}

// A clause of those that are cut from the literals.
fn clause_of<'a>(ends: &[usize], literals: &'a [Lit], number: usize) -> &'a [Lit]
    requires ends { EndsAt (length literals.now) 0 ends.now }
    requires number { number < length ends.now }
    ensures { result.now ≡ slice_index_or (cut 0 ends.now literals.now) number [] }
{
    part(literals, start_of(ends, number), ends[number])
}

impl Clauses {
    pub fn new(alloc: Global) -> Clauses
        ensures { result ≡ [] }
    {
        Clauses {
            literals: Vec::new(alloc),
            ends: Vec::new(alloc),
        }
    }

    /// Clauses of their own, the same.
    pub fn copy(&self, alloc: Global) -> Result<Clauses, NoMemory>
        ensures { IfOk result (λ copy. copy ≡ self.now) }
    {
        Ok(Clauses {
            literals: Vec::from_slice(alloc, &self.literals)?,
            ends: Vec::from_slice(alloc, &self.ends)?,
        })
    }

    /// Adds a clause behind the others, or leaves them as they were.
    pub fn add(&mut self, literals: &[Lit]) -> Result<(), NoMemory>
        ensures ok { OnOk result (self.new ≡ self.old ++ literals.now ∷ []) }
        ensures err { OnErr result (self.new ≡ self.old) }
    {
        self.ends.reserve(1)?;
        self.literals.extend_from_slice(literals)?;
        self.ends.push_reserved(self.literals.len());
        Ok(())
    }

    /// The number of clauses. They count from 0, in the order of adding.
    pub fn len(&self) -> u64
        ensures { result ≡ length self.now }
    {
        self.ends.len() as u64
    }

    /// The literals of a clause.
    pub fn clause(&self, number: u64) -> &[Lit]
        requires { number < length self.now }
        ensures { result.now ≡ slice_index_or self.now number [] }
    {
        clause_of(&self.ends, &self.literals, number as usize)
    }
}
