// Whether an atom leads from an anchor to the place.
ghost use Rattle.std.specs.Prelude.{◌≡◌, false, ◌==◌, ◌+◌, ◌*◌, ◌≤◌, length};
ghost use Rattle.bddl_model.specs.Truth.{Assignment};
ghost use Rattle.bddl_model.specs.Circuit.{IsWire, holds};
ghost use Rattle.bddl_model.specs.Growth.{HasRoom, Makes};
ghost use Rattle.bddl_model.specs.Words.{AreWires, word_bits, word_value};
ghost use Rattle.bddl_model.specs.Fitting.{led};
ghost use Rattle.bddl_model.specs.OneCell as spec;
ghost use Rattle.bddl_model.specs.OneCell.{spelled_cell};

use bddl_model::{Atom, NoMemory, Term, Wire};
use bit_arith::{difference, equal, equal_const};
use circuit_dag::Dag;
use std::alloc::Global;

// A wire that never holds.
fn never(dag: &Dag) -> Wire
    ensures wire { IsWire dag.now result }
    ensures value { (a : Assignment) → holds dag.now result a ≡ false }
{
    let truth = dag.truth();
    dag.not(truth)
}

/// A wire that holds where a word, counted from 1, is the number.
pub fn is_number(dag: &mut Dag, word: &[Wire], number: u32) -> Result<Wire, NoMemory>
    requires word { AreWires dag.old word.now }
    requires short { length word.now ≤ 16 }
    requires room { HasRoom dag.old (length word.now) }
    ensures { Makes (length word.now) dag.old dag.new result (λ a. number == word_value dag.old word.now a + 1) }
{
    if number == 0 {
        return Ok(never(dag));
    }
    equal_const(dag, word, number - 1)
}

// A wire that holds where a shift leads from one number to another, both counted from 1.
fn shifts_to(
    alloc: Global,
    dag: &mut Dag,
    shift: i32,
    anchor: &[Wire],
    place: &[Wire],
) -> Result<Wire, NoMemory>
    requires anchor { AreWires dag.old anchor.now }
    requires place { AreWires dag.old place.now }
    requires lengths { length anchor.now ≡ length place.now }
    requires short { length place.now ≤ 16 }
    requires room { HasRoom dag.old (8 * length place.now + 1) }
    ensures { Makes (8 * length place.now + 1) dag.old dag.new result (λ a. led (Term.Rel shift) (word_value dag.old anchor.now a + 1) == word_value dag.old place.now a + 1) }
{
    if shift == 0 {
        return equal(dag, anchor, place);
    }
    let power = 1u32 << place.len();
    let by = shift.unsigned_abs();
    let more = difference(alloc, dag, place, anchor)?;
    if shift > 0 {
        return equal_const(dag, &more, power + by);
    }
    if by > power {
        return Ok(never(dag));
    }
    equal_const(dag, &more, power - by)
}

// A wire that holds where a term leads from one number to another, both counted from 1.
fn leads_to(
    alloc: Global,
    dag: &mut Dag,
    term: Term,
    anchor: &[Wire],
    place: &[Wire],
) -> Result<Wire, NoMemory>
    requires anchor { AreWires dag.old anchor.now }
    requires place { AreWires dag.old place.now }
    requires lengths { length anchor.now ≡ length place.now }
    requires short { length place.now ≤ 16 }
    requires room { HasRoom dag.old (8 * length place.now + 1) }
    ensures { Makes (8 * length place.now + 1) dag.old dag.new result (λ a. led term (word_value dag.old anchor.now a + 1) == word_value dag.old place.now a + 1) }
{
    match term {
        Term::Rel(shift) => shifts_to(alloc, dag, shift, anchor, place),
        Term::Abs(number) => is_number(dag, place, number),
    }
}

/// A wire that holds where the atom's cell, from the anchor, is the place. Of both words the column
/// comes first, with so many bits. They are compared as whole numbers: a cell that lies before or
/// behind the board is no place.
pub fn touches(
    alloc: Global,
    dag: &mut Dag,
    atom: Atom,
    anchor: &[Wire],
    x_bits: u32,
    place: &[Wire],
) -> Result<Wire, NoMemory>
    requires anchor { AreWires dag.old anchor.now }
    requires place { AreWires dag.old place.now }
    requires lengths { length anchor.now ≡ length place.now }
    requires x_bits { x_bits ≤ length place.now }
    requires short { length place.now ≤ 16 }
    requires room { HasRoom dag.old (8 * (length place.now + 4)) }
    ensures { Makes (8 * (length place.now + 4)) dag.old dag.new result (λ a.
        spec.touches atom (spelled_cell x_bits (word_bits dag.old anchor.now a)) (spelled_cell x_bits (word_bits dag.old place.now a))) }
{
    let (anchor_x, anchor_y) = anchor.split_at(x_bits as usize);
    let (place_x, place_y) = place.split_at(x_bits as usize);
    let x = leads_to(alloc, dag, atom.x, anchor_x, place_x)?;
    let y = leads_to(alloc, dag, atom.y, anchor_y, place_y)?;
    dag.and(x, y)
}
