// The request `certify`.
ghost use Rattle.std.specs.Prelude.{◌≤◌, length};
ghost use Rattle.bddl_model.specs.Outcome.{GameThen, CertifyEnds};
ghost use Rattle.io_edge.specs.Outside.{Counts};
ghost use Rattle.request_parts.specs.Ends.{Writes, content_told, is_write_fault};

use bddl_laws::valid_certificates_have_a_text;
use bddl_model::Steps;
use cert_text::write_cert;
use io_edge::Sink;
use qbf_search::Decider;
use request_parts::{Close, Content, Stop, read_game};
use std::alloc::Global;
use strategy::{Extracted, extract};

/// Looks for a strategy by which Black wins the game of two texts, in at most so many steps, and
/// writes it as a certificate.
pub fn certify<K: Sink>(
    alloc: Global,
    domain: &[u8],
    problem: &[u8],
    budget: u64,
    decider: &mut Box<dyn Decider>,
    out: &mut K,
) -> Result<Close, Stop<Content>>
    requires domain_short { length domain.now ≤ 1048576 }
    requires problem_short { length problem.now ≤ 1048576 }
    ensures written { Writes content_told (GameThen domain.now problem.now (CertifyEnds budget))
        (K.written out.old) (K.written out.new) result }
    ensures cause { Counts (K.faults out.old) (K.faults out.new) (is_write_fault result) }
{
    let setup = read_game(alloc, domain, problem)?;
    let mut steps = Steps::new(budget);
    let (first, depth) = (setup.first, setup.depth);
    setup.game.keeps_the_limits();
    valid_certificates_have_a_text();
    match extract(
        alloc,
        &setup.game,
        &setup.board,
        first,
        depth,
        decider,
        &mut steps,
    )? {
        Extracted::Won(nodes) => {
            write_cert(nodes.as_slice(), out)?;
            Ok(Close::Yes)
        }
        Extracted::NotWon => Ok(Close::NoStrategy),
        Extracted::Spent => Ok(Close::NotFound),
    }
}
