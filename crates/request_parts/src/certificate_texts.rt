// The certificate that a text has and that is valid for a game, or what is wrong with it.
ghost use Rattle.std.specs.Prelude.{◌≡◌, true, IfOk, IfErr};
ghost use Rattle.bddl_model.specs.Certificate.{valid};
ghost use Rattle.bddl_model.specs.CertificateText.{CertText};
ghost use Rattle.bddl_model.specs.Outcome.{AcceptedThen, CertThen};
ghost use Rattle.request_parts.specs.Ends.{NoCertificate, Nothing, StopsAt, content_told};

use crate::refusal::{Content, Stop};
use bddl_laws::trees_are_linked;
use bddl_model::Cert;
use cert_checker::check_cert;
use cert_text::read_cert;
use offset_check::Setup;
use std::alloc::Global;

// The nodes of a text.
fn read_nodes(alloc: Global, bytes: &[u8]) -> Result<Cert, Stop<Content>>
    ensures found { IfOk result (λ nodes. CertText bytes.now nodes) }
    ensures stop { IfErr result (StopsAt content_told (CertThen bytes.now Nothing)) }
{
    Ok(read_cert(alloc, bytes)?)
}

/// The certificate of a text, which is valid for the setup.
pub fn read_accepted(alloc: Global, setup: &Setup, bytes: &[u8]) -> Result<Cert, Stop<Content>>
    ensures found { IfOk result (λ nodes. CertText bytes.now nodes) }
    ensures valid { IfOk result (λ nodes. valid setup.now nodes ≡ true) }
    ensures stop { IfErr result (StopsAt content_told (AcceptedThen bytes.now NoCertificate setup.now)) }
{
    let nodes = read_nodes(alloc, bytes)?;
    trees_are_linked();
    check_cert(alloc, setup, nodes.as_slice())?;
    Ok(nodes)
}
