// The request `check`.
ghost use Rattle.std.specs.Prelude.{◌≤◌, length};
ghost use Rattle.bddl_model.specs.Outcome.{GameThen, AcceptedThen, CheckEnds};
ghost use Rattle.io_edge.specs.Outside.{Counts};
ghost use Rattle.request_parts.specs.Ends.{Writes, content_told, is_write_fault};

use bddl_laws::valid_certificates_win;
use io_edge::{Sink, put_text};
use request_parts::{Close, Content, Stop, read_accepted, read_game};
use std::alloc::Global;

/// Checks that a text has a certificate that is valid for the game of two texts, and writes that it
/// is accepted.
pub fn check<K: Sink>(
    alloc: Global,
    domain: &[u8],
    problem: &[u8],
    certificate: &[u8],
    out: &mut K,
) -> Result<Close, Stop<Content>>
    requires domain_short { length domain.now ≤ 1048576 }
    requires problem_short { length problem.now ≤ 1048576 }
    ensures written { Writes content_told (GameThen domain.now problem.now (AcceptedThen certificate.now CheckEnds))
        (K.written out.old) (K.written out.new) result }
    ensures cause { Counts (K.faults out.old) (K.faults out.new) (is_write_fault result) }
{
    let setup = read_game(alloc, domain, problem)?;
    valid_certificates_win();
    read_accepted(alloc, &setup, certificate)?;
    put_text(out, b"accepted\n")?;
    Ok(Close::Done)
}
