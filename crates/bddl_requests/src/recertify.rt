// The request `recert`.
ghost use Rattle.std.specs.Prelude.{◌≤◌, length};
ghost use Rattle.bddl_model.specs.Outcome.{GameThen, AcceptedThen, RecertifyEnds};
ghost use Rattle.io_edge.specs.Outside.{Counts};
ghost use Rattle.request_parts.specs.Ends.{Writes, content_told, is_write_fault};

use bddl_laws::valid_certificates_have_a_text;
use cert_checker::share_cert;
use cert_text::write_cert;
use io_edge::Sink;
use request_parts::{Close, Content, Stop, read_accepted, read_game};
use std::alloc::Global;

/// Reads the certificate of a text, which is valid for the game of two texts, and writes its shared
/// form.
pub fn recertify<K: Sink>(
    alloc: Global,
    domain: &[u8],
    problem: &[u8],
    certificate: &[u8],
    out: &mut K,
) -> Result<Close, Stop<Content>>
    requires domain_short { length domain.now ≤ 1048576 }
    requires problem_short { length problem.now ≤ 1048576 }
    ensures written { Writes content_told (GameThen domain.now problem.now (AcceptedThen certificate.now RecertifyEnds))
        (K.written out.old) (K.written out.new) result }
    ensures cause { Counts (K.faults out.old) (K.faults out.new) (is_write_fault result) }
{
    let setup = read_game(alloc, domain, problem)?;
    let nodes = read_accepted(alloc, &setup, certificate)?;
    let shared = share_cert(alloc, &setup, nodes.as_slice())?;
    setup.game.keeps_the_limits();
    valid_certificates_have_a_text();
    write_cert(shared.as_slice(), out)?;
    Ok(Close::Done)
}
