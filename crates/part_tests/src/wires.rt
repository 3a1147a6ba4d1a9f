// Wires that always hold, or never, and words of them.
ghost use Rattle.std.specs.Prelude.{◌≡◌, length, IfOk};
ghost use Rattle.bddl_model.specs.Circuit.{IsWire};
ghost use Rattle.bddl_model.specs.Words.{AreWires};

use bddl_model::{NoMemory, Wire};
use circuit_dag::Dag;
use std::alloc::Global;

/// A wire that always holds, or never.
pub fn bit(dag: &Dag, value: bool) -> Wire
    ensures { IsWire dag.now result }
{
    let truth = dag.truth();
    if value { truth } else { dag.not(truth) }
}

/// The least bits of a number.
pub fn word(alloc: Global, dag: &Dag, number: u32, count: u32) -> Result<Vec<Wire>, NoMemory>
    ensures wires { IfOk result (λ ws. AreWires dag.now ws.items) }
    ensures length { IfOk result (λ ws. length ws.items ≡ count) }
{
    let mut wires = Vec::with_capacity(alloc, count as usize)?;
    let mut rest = number;
    'bits: for _ in 0..count {
        wires.push(bit(dag, rest % 2 == 1))?;
        rest = rest / 2;
    }
    Ok(wires)
}
