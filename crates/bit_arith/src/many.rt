// All and one of many wires.
ghost use Rattle.std.specs.Prelude.{length};
ghost use Rattle.std.specs.List.{list_all, list_any};
ghost use Rattle.bddl_model.specs.Circuit.{holds};
ghost use Rattle.bddl_model.specs.Growth.{HasRoom, Makes};
ghost use Rattle.bddl_model.specs.Words.{AreWires};

use bddl_model::{NoMemory, Wire};
use circuit_dag::Dag;

/// A wire that holds where all of the wires do.
pub fn all_of(dag: &mut Dag, wires: &[Wire]) -> Result<Wire, NoMemory>
    requires wires { AreWires dag.old wires.now }
    requires room { HasRoom dag.old (length wires.now) }
    ensures { Makes (length wires.now) dag.old dag.new result (λ a. list_all (λ x. holds dag.old x a) wires.now) }
{
    let mut all = dag.truth();
    'wires: for wire in wires {
        all = dag.and(all, *wire)?;
    }
    Ok(all)
}

/// A wire that holds where one of the wires does.
pub fn any_of(dag: &mut Dag, wires: &[Wire]) -> Result<Wire, NoMemory>
    requires wires { AreWires dag.old wires.now }
    requires room { HasRoom dag.old (length wires.now) }
    ensures { Makes (length wires.now) dag.old dag.new result (λ a. list_any (λ x. holds dag.old x a) wires.now) }
{
    let mut none = dag.truth();
    'wires: for wire in wires {
        let fails = dag.not(*wire);
        none = dag.and(none, fails)?;
    }
    Ok(dag.not(none))
}
