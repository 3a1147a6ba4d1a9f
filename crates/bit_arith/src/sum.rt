// The sum of a word and a number.
ghost use Rattle.std.specs.Prelude.{◌≡◌, ◌+◌, ◌*◌, ◌^◌, ◌%◌, ◌≤◌, false, get_or, length, IfOk, pos, negsuc, ◌+ℤ◌, ◌≤ℤ◌};
ghost use Rattle.std.specs.Int.{int_rem_euclid};
ghost use Rattle.bddl_model.specs.Truth.{Assignment};
ghost use Rattle.bddl_model.specs.Circuit.{IsWire, holds};
ghost use Rattle.bddl_model.specs.Growth.{HasRoom, Grows};
ghost use Rattle.bddl_model.specs.Words.{AreWires, word_bits, word_value};

use crate::gates::sum_of;
use bddl_model::{NoMemory, Wire};
use circuit_dag::Dag;
use std::alloc::Global;

/// The wire at a place of a word; past its end, one that never holds.
fn bit_of(dag: &Dag, a: &[Wire], i: usize) -> Wire
    requires { AreWires dag.now a.now }
    ensures wire { IsWire dag.now result }
    ensures value { (v : Assignment) → holds dag.now result v ≡ get_or (word_bits dag.now a.now v) i false }
{
    if i < a.len() {
        return a[i];
    }
    let truth = dag.truth();
    dag.not(truth)
}

/// A word and a natural number, in a word of as many wires as asked.
fn add(alloc: Global, dag: &mut Dag, a: &[Wire], k: u32, width: u32) -> Result<Vec<Wire>, NoMemory>
    requires a { AreWires dag.old a.now }
    requires width { width ≤ 16 }
    requires fits { length a.now ≤ width }
    requires room { HasRoom dag.old (3 * width) }
    ensures wires { IfOk result (λ ws. AreWires dag.new ws.items) }
    ensures length { IfOk result (λ ws. length ws.items ≡ width) }
    ensures value { IfOk result (λ ws. (v : Assignment) → word_value dag.new ws.items v ≡ (word_value dag.old a.now v + k) % 2 ^ width) }
    ensures grows { Grows (3 * width) dag.old dag.new }
{
    let mut digits = Vec::with_capacity(alloc, width as usize)?;
    let truth = dag.truth();
    let mut carry = dag.not(truth);
    let mut rest = k;
    'bits: for i in 0..width as usize {
        let bit = bit_of(dag, a, i);
        let sum = sum_of(dag, bit, carry, rest % 2 == 1)?;
        digits.push(sum.digit)?;
        carry = sum.carry;
        rest = rest / 2;
    }
    Ok(digits)
}

/// A word and a number, in a word of as many wires as asked: the sum modulo that power of two.
pub fn add_const(
    alloc: Global,
    dag: &mut Dag,
    a: &[Wire],
    k: i32,
    width: u32,
) -> Result<Vec<Wire>, NoMemory>
    requires a { AreWires dag.old a.now }
    requires width { (1 ≤ width) × (width ≤ 16) }
    requires fits { length a.now ≤ width }
    requires number { (negsuc 32767 ≤ℤ k) × (k ≤ℤ pos 32767) }
    requires room { HasRoom dag.old (4 * width) }
    ensures wires { IfOk result (λ ws. AreWires dag.new ws.items) }
    ensures length { IfOk result (λ ws. length ws.items ≡ width) }
    ensures value { IfOk result (λ ws. (v : Assignment) → pos (word_value dag.new ws.items v) ≡ int_rem_euclid (pos (word_value dag.old a.now v) +ℤ k) (pos (2 ^ width))) }
    ensures grows { Grows (4 * width) dag.old dag.new }
{
    add(alloc, dag, a, (k + 65_536) as u32, width)
}
