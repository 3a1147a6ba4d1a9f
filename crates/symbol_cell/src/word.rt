// Words of inputs.
ghost use Rattle.std.specs.Prelude.{◌+◌, ◌≤◌, IfOk};
ghost use Rattle.symbol_cell.specs.Coded.{Carries};

use bddl_model::{NoMemory, Span, Wire};
use circuit_dag::Dag;
use std::alloc::Global;

/// The wires of a span's inputs, in their order.
pub fn input_word(alloc: Global, dag: &Dag, span: Span) -> Result<Vec<Wire>, NoMemory>
    requires first { 1 ≤ span.from }
    requires last { span.from + span.len ≤ dag.now.inputs + 1 }
    ensures { IfOk result (λ word. Carries dag.now span word.items) }
{
    dag.keeps_its_order();
    let mut word = Vec::with_capacity(alloc, span.len as usize)?;
    'inputs: for i in 0..span.len {
        word.push(dag.input(span.from + i))?;
    }
    Ok(word)
}
