// A clause whose end has not been read.
ghost use Rattle.std.specs.Prelude.{◌≡◌, ℕ, ◌+◌, ◌*◌, ◌<◌, true, false, length, slice_index_or, IfOk, OnOk};
ghost use Rattle.bddl_model.specs.Forms.{has_number};
ghost use Rattle.qdimacs_io.specs.MarkSets.{AllBelow, table, no_mark, literal_number, literal_numbers};
ghost use Rattle.qdimacs_io.specs.States.{no_literals, none_open, with_literal, with_open};

use crate::marks::Marks;
use bddl_model::{Lit, NoMemory};
use qbf_form::Clauses;
use std::alloc::Global;
use std::marker::Model;

/// The literals of a clause so far, each once, and whether one of them stands there with its
/// opposite. What a literal costs doesn't grow with the clause.
#[derive(Debug, Drop)]
pub struct OpenClause {
    literals: Vec<Lit>,
    opposed: bool,
    // By the numbers of literals.
    marks: Marks,
}

impl Model for OpenClause {
    ghost use Rattle.std.specs.Prelude.{length};
    ghost use Rattle.qdimacs_io.specs.MarkSets.{AreMarked};
    ghost use Rattle.qdimacs_io.specs.States.{OpenLiterals};

    ghost Value = { OpenLiterals };

    ghost view = { λ c. record { room = length c.marks; literals = c.literals.items; opposed = c.opposed } };

    ghost invariant = { λ c. AreMarked c.literals.items c.marks };
}

fn number_of(literal: Lit) -> usize
    ensures { result ≡ literal_number literal }
{
    2 * literal.var.0 as usize + literal.negated as usize
}

// Takes the marks of these literals away, which are all that there are.
fn remove_all(marks: &mut Marks, literals: &[Lit])
    requires within { AllBelow (length marks.old) (literal_numbers literals.now) }
    requires covers { (n : ℕ) → n < length marks.old → slice_index_or marks.old n false ≡ true → has_number (literal_numbers literals.now) n ≡ true }
    ensures { marks.new ≡ table (length marks.old) no_mark }
{
    for literal in literals {
        marks.remove(number_of(*literal));
    }
}

impl OpenClause {
    /// Without literals, and with room for those of so many variables.
    pub fn new(alloc: Global, variables: u32) -> Result<OpenClause, NoMemory>
        ensures { IfOk result (λ c. c ≡ no_literals (2 * variables + 2)) }
    {
        Ok(OpenClause {
            literals: Vec::new(alloc),
            opposed: false,
            marks: Marks::new(alloc, 2 * variables as usize + 2)?,
        })
    }

    pub fn is_empty(&self) -> bool
        ensures { result ≡ none_open self.now.literals }
    {
        self.literals.is_empty()
    }

    /// Adds a literal, unless it stands there already.
    pub fn add(&mut self, literal: Lit) -> Result<(), NoMemory>
        requires { 2 * literal.var.0 + 1 < self.old.room }
        ensures literals { OnOk result (self.new ≡ with_literal self.old literal) }
        ensures room { self.new.room ≡ self.old.room }
    {
        let number = number_of(literal);
        self.opposed |= self.marks.has(number_of(literal.negation()));
        if self.marks.has(number) {
            return Ok(());
        }
        self.literals.push(literal)?;
        self.marks.add(number);
        Ok(())
    }

    /// Ends the clause, and begins one without literals. It goes behind the others, unless it is
    /// always true.
    pub fn end(&mut self, clauses: &mut Clauses) -> Result<(), NoMemory>
        ensures clauses { OnOk result (clauses.new ≡ with_open clauses.old self.old) }
        ensures next { OnOk result (self.new ≡ no_literals self.old.room) }
        ensures room { self.new.room ≡ self.old.room }
    {
        if !self.opposed {
            clauses.add(&self.literals)?;
        }
        remove_all(&mut self.marks, &self.literals);
        self.literals.clear();
        self.opposed = false;
        Ok(())
    }
}
