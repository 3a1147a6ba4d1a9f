// The length of a form's tail.
ghost use Rattle.std.specs.Prelude.{◌≡◌, ◌+◌, ◌≤◌, length, IfOk};
ghost use Rattle.bddl_model.specs.Forms.{greatest_variables};
ghost use Rattle.bddl_model.specs.Tail.{tail_length};
ghost use Rattle.qbf_form.specs.TailMarks as spec;

use crate::form::Form;
use crate::marks::{gate_marks, has_mark, unit_marks};
use crate::pairs::Pairs;
use bddl_model::{Bound, NoMemory, Quant};
use std::alloc::Global;

// The length of the longest tail up to this variable, where those before it had one of this length.
fn next_length(length: u32, bound: Bound, units: &[bool], gates: &[bool]) -> u32
    requires { length ≤ greatest_variables }
    ensures length { result ≡ spec.next_length (spec.has_mark units.now) (spec.has_mark gates.now) length bound }
    ensures one_more { result ≤ length + 1 }
{
    if bound.quant != Quant::Exists {
        return 0;
    }
    if length > 0 && has_mark(gates, bound.var) {
        return length + 1;
    }
    if has_mark(units, bound.var) { 1 } else { 0 }
}

fn longest(bounds: &[Bound], units: &[bool], gates: &[bool]) -> u32
    requires { length bounds.now ≤ greatest_variables }
    ensures { result ≡ spec.longest_from (spec.has_mark units.now) (spec.has_mark gates.now) 0 bounds.now }
{
    let mut length = 0;
    for bound in bounds {
        length = next_length(length, *bound, units, gates);
    }
    length
}

impl Form {
    /// The length of the tail: the longest end of the prefix in which each variable is existential,
    /// the first one is a clause, and gates define the others by variables before them.
    pub fn tail(&self, alloc: Global) -> Result<u32, NoMemory>
        ensures { IfOk result (λ n. n ≡ tail_length self.now) }
    {
        self.keeps_its_form();
        self.prefix().keeps_its_variables();
        let pairs = Pairs::of(alloc, self)?;
        let units = unit_marks(alloc, self)?;
        let gates = gate_marks(alloc, self, &pairs)?;
        Ok(longest(self.prefix().as_slice(), &units, &gates))
    }
}
