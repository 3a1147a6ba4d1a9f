// The difference of two words.
ghost use Rattle.std.specs.Prelude.{◌≡◌, ◌+◌, ◌*◌, ◌^◌, ◌≤◌, length, IfOk};
ghost use Rattle.bddl_model.specs.Truth.{Assignment};
ghost use Rattle.bddl_model.specs.Circuit.{IsWire, holds};
ghost use Rattle.bddl_model.specs.Growth.{HasRoom, Grows};
ghost use Rattle.bddl_model.specs.Words.{AreWires, word_value};
ghost use Rattle.bit_arith.specs.Digits.{digit};

use crate::gates::{Sum, or, sum_of};
use bddl_model::{NoMemory, Wire};
use circuit_dag::Dag;
use std::alloc::Global;

/// The sum of two bits and of what was carried.
fn sum_of_three(dag: &mut Dag, left: Wire, right: Wire, carry: Wire) -> Result<Sum, NoMemory>
    requires left { IsWire dag.old left }
    requires right { IsWire dag.old right }
    requires carry { IsWire dag.old carry }
    requires room { HasRoom dag.old 7 }
    ensures wires { IfOk result (λ s. IsWire dag.new s.digit × IsWire dag.new s.carry) }
    ensures value { IfOk result (λ s. (a : Assignment) → digit (holds dag.new s.digit a) + 2 * digit (holds dag.new s.carry a)
        ≡ digit (holds dag.old left a) + digit (holds dag.old right a) + digit (holds dag.old carry a)) }
    ensures grows { Grows 7 dag.old dag.new }
{
    let two = sum_of(dag, left, right, false)?;
    let three = sum_of(dag, two.digit, carry, false)?;
    let carry = or(dag, two.carry, three.carry)?;
    Ok(Sum {
        digit: three.digit,
        carry,
    })
}

/// By how much a word is more than another of its length, and the power of two of this length more,
/// so that the number is never below 0.
pub fn difference(
    alloc: Global,
    dag: &mut Dag,
    a: &[Wire],
    b: &[Wire],
) -> Result<Vec<Wire>, NoMemory>
    requires a { AreWires dag.old a.now }
    requires b { AreWires dag.old b.now }
    requires lengths { length a.now ≡ length b.now }
    requires short { length a.now ≤ 16 }
    requires room { HasRoom dag.old (7 * length a.now) }
    ensures wires { IfOk result (λ ws. AreWires dag.new ws.items) }
    ensures length { IfOk result (λ ws. length ws.items ≡ length a.now + 1) }
    ensures value { IfOk result (λ ws. (v : Assignment) → word_value dag.new ws.items v + word_value dag.old b.now v ≡ word_value dag.old a.now v + 2 ^ length a.now) }
    ensures grows { Grows (7 * length a.now) dag.old dag.new }
{
    let mut digits = Vec::with_capacity(alloc, a.len() + 1)?;
    let mut carry = dag.truth();
    'bits: for i in 0..a.len() {
        let opposite = dag.not(b[i]);
        let sum = sum_of_three(dag, a[i], opposite, carry)?;
        digits.push(sum.digit)?;
        carry = sum.carry;
    }
    digits.push(carry)?;
    Ok(digits)
}
