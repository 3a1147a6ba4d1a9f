// Circuits of a few gates.
ghost use Rattle.std.specs.Prelude.{◌≡◌, ◌+◌, ◌*◌, ◌&&◌, ◌||◌, IfOk, if◌then◌else◌};
ghost use Rattle.std.specs.Bool.{beq};
ghost use Rattle.bddl_model.specs.Truth.{Assignment};
ghost use Rattle.bddl_model.specs.Circuit.{IsWire, holds};
ghost use Rattle.bddl_model.specs.Growth.{HasRoom, Grows, Makes};
ghost use Rattle.bit_arith.specs.Digits.{digit};

use bddl_model::{NoMemory, Wire};
use circuit_dag::Dag;

/// A wire that holds where one of two does.
pub fn or(dag: &mut Dag, left: Wire, right: Wire) -> Result<Wire, NoMemory>
    requires left { IsWire dag.old left }
    requires right { IsWire dag.old right }
    requires room { HasRoom dag.old 1 }
    ensures { Makes 1 dag.old dag.new result (λ a. holds dag.old left a || holds dag.old right a) }
{
    let not_left = dag.not(left);
    let not_right = dag.not(right);
    let neither = dag.and(not_left, not_right)?;
    Ok(dag.not(neither))
}

/// A wire that holds where one does or both of two others do.
pub fn or_both(dag: &mut Dag, known: Wire, left: Wire, right: Wire) -> Result<Wire, NoMemory>
    requires known { IsWire dag.old known }
    requires left { IsWire dag.old left }
    requires right { IsWire dag.old right }
    requires room { HasRoom dag.old 2 }
    ensures { Makes 2 dag.old dag.new result (λ a. holds dag.old known a || holds dag.old left a && holds dag.old right a) }
{
    let both = dag.and(left, right)?;
    or(dag, known, both)
}

/// A wire that holds where both of two do, or where one does.
pub fn join(dag: &mut Dag, both: bool, left: Wire, right: Wire) -> Result<Wire, NoMemory>
    requires left { IsWire dag.old left }
    requires right { IsWire dag.old right }
    requires room { HasRoom dag.old 1 }
    ensures { Makes 1 dag.old dag.new result (λ a.
        if both then holds dag.old left a && holds dag.old right a else holds dag.old left a || holds dag.old right a) }
{
    if both {
        return dag.and(left, right);
    }
    or(dag, left, right)
}

/// The wire itself, or its opposite.
pub fn signed(dag: &Dag, positive: bool, wire: Wire) -> Wire
    ensures wire { IsWire dag.now wire → IsWire dag.now result }
    ensures value { (a : Assignment) → holds dag.now result a ≡ beq positive (holds dag.now wire a) }
{
    if positive {
        return wire;
    }
    dag.not(wire)
}

/// A wire that holds where two wires hold the same.
pub fn same(dag: &mut Dag, left: Wire, right: Wire) -> Result<Wire, NoMemory>
    requires left { IsWire dag.old left }
    requires right { IsWire dag.old right }
    requires room { HasRoom dag.old 3 }
    ensures { Makes 3 dag.old dag.new result (λ a. beq (holds dag.old left a) (holds dag.old right a)) }
{
    let both = dag.and(left, right)?;
    let one_holds = or(dag, left, right)?;
    let neither = dag.not(one_holds);
    or(dag, both, neither)
}

/// The wire of `a` where `s` holds, else that of `b`.
pub fn choose(dag: &mut Dag, s: Wire, a: Wire, b: Wire) -> Result<Wire, NoMemory>
    requires s { IsWire dag.old s }
    requires a { IsWire dag.old a }
    requires b { IsWire dag.old b }
    requires room { HasRoom dag.old 3 }
    ensures { Makes 3 dag.old dag.new result (λ v. if holds dag.old s v then holds dag.old a v else holds dag.old b v) }
{
    let first = dag.and(s, a)?;
    let not_s = dag.not(s);
    let second = dag.and(not_s, b)?;
    or(dag, first, second)
}

/// A digit of a sum, and what it carries.
#[derive(Clone, Copy)]
pub struct Sum {
    pub digit: Wire,
    pub carry: Wire,
}

/// The sum of two bits and of a third that is known.
pub fn sum_of(dag: &mut Dag, left: Wire, right: Wire, one: bool) -> Result<Sum, NoMemory>
    requires left { IsWire dag.old left }
    requires right { IsWire dag.old right }
    requires room { HasRoom dag.old 3 }
    ensures wires { IfOk result (λ s. IsWire dag.new s.digit × IsWire dag.new s.carry) }
    ensures value { IfOk result (λ s. (a : Assignment) → digit (holds dag.new s.digit a) + 2 * digit (holds dag.new s.carry a)
        ≡ digit (holds dag.old left a) + digit (holds dag.old right a) + digit one) }
    ensures grows { Grows 3 dag.old dag.new }
{
    let both = dag.and(left, right)?;
    let one_holds = or(dag, left, right)?;
    let not_both = dag.not(both);
    let differ = dag.and(not_both, one_holds)?;
    if one {
        return Ok(Sum {
            digit: dag.not(differ),
            carry: one_holds,
        });
    }
    Ok(Sum {
        digit: differ,
        carry: both,
    })
}
