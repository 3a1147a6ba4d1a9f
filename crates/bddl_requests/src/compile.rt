// The request `compile`.
ghost use Rattle.std.specs.Prelude.{◌≤◌, length};
ghost use Rattle.bddl_model.specs.Outcome.{GameThen, CompileEnds};
ghost use Rattle.io_edge.specs.Outside.{Counts};
ghost use Rattle.request_parts.specs.Ends.{Writes, content_told, is_write_fault};

use bddl_laws::text_is_read;
use io_edge::Sink;
use request_parts::{Close, Content, Stop, read_game};
use std::alloc::Global;
use strategy::compile_to;

/// Compiles the game of two texts, and writes the formula.
pub fn compile<K: Sink>(
    alloc: Global,
    domain: &[u8],
    problem: &[u8],
    out: &mut K,
) -> Result<Close, Stop<Content>>
    requires domain_short { length domain.now ≤ 1048576 }
    requires problem_short { length problem.now ≤ 1048576 }
    ensures written { Writes content_told (GameThen domain.now problem.now (CompileEnds domain.now problem.now))
        (K.written out.old) (K.written out.new) result }
    ensures cause { Counts (K.faults out.old) (K.faults out.new) (is_write_fault result) }
{
    let setup = read_game(alloc, domain, problem)?;
    text_is_read();
    let (first, depth) = (setup.first, setup.depth);
    compile_to(alloc, &setup.game, &setup.board, first, depth, out)?;
    Ok(Close::Done)
}
