// Reading a whole text.
ghost use Rattle.std.specs.Prelude.{ℕ, ◌≡◌, ◌≢◌, ◌⊎◌, List, Ok, Err, Some, All, IfOk, IfErr, length};
ghost use Rattle.bddl_model.specs.declared.certificate.CertReadFault.{CertReadFault};
ghost use Rattle.bddl_model.specs.declared.certificate.CertReadFault.TheVariants.{NoMemory as out_of_memory};
ghost use Rattle.bddl_model.specs.declared.certificate.Node.{Node};
ghost use Rattle.bddl_model.specs.CertificateGraph.{answers, links};
ghost use Rattle.bddl_model.specs.CertificateText.{CertText};
ghost use Rattle.bddl_model.specs.CertificateFaults.{CertFails, trees_due};
ghost use Rattle.cert_text.specs.Answers.{UnlessNoMemory};
ghost use Rattle.cert_text.specs.Reached.{AreBelow, AllNamed, IsFirstUnnamed};
ghost use Rattle.cert_text.specs.Trees.{trees_from};

use crate::header::{Version, header};
use crate::nodes::read_nodes;
use crate::reached::first_unnamed;
use crate::tree::numbered;
use bddl_model::{Cert, CertReadFault, Node};
use std::alloc::Global;

// The nodes of a tree with their next numbers, if there are as many as the header says.
fn whole_tree(alloc: Global, said: u64, nodes: &[Node]) -> Result<Cert, CertReadFault>
    requires { trees_due 1 (links nodes.now) ≡ Some 0 }
    ensures tree { IfOk result (λ tree. (said ≡ length nodes.now) × (tree ≡ (trees_from 0 nodes.now).nodes)) }
    ensures fault { IfErr result (λ f. (f ≡ out_of_memory) ⊎ ((f ≡ CertReadFault.CountDiffers said (length nodes.now)) × (said ≢ length nodes.now))) }
{
    let found = nodes.len() as u64;
    if said != found {
        return Err(CertReadFault::CountDiffers { said, found });
    }
    Ok(numbered(alloc, nodes)?)
}

// The nodes, if each of them is named.
fn all_reached(alloc: Global, nodes: Cert) -> Result<Cert, CertReadFault>
    requires { All (λ node. AreBelow (length nodes) (answers node)) nodes }
    ensures nodes { IfOk result (λ cert. (cert ≡ nodes) × AllNamed nodes (length nodes)) }
    ensures fault { IfErr result (λ f. (f ≡ out_of_memory) ⊎ ((n : ℕ) × (f ≡ CertReadFault.NotReached n) × IsFirstUnnamed nodes n)) }
{
    match first_unnamed(alloc, nodes.as_slice())? {
        Some(node) => Err(CertReadFault::NotReached { node }),
        None => Ok(nodes),
    }
}

fn read_text(alloc: Global, bytes: &[u8]) -> Result<Cert, CertReadFault>
    ensures cert { IfOk result (λ nodes. CertText bytes.now nodes) }
    ensures fault { IfErr result (λ f. (f ≡ out_of_memory) ⊎ CertFails bytes.now f) }
{
    let Some((version, count, rest)) = header(bytes) else {
        return Err(CertReadFault::NotHeader);
    };
    let (nodes, rest) = read_nodes(alloc, version, count, rest)?;
    if !rest.is_empty() {
        return Err(CertReadFault::Unused {
            node: nodes.as_slice().len() as u64,
        });
    }
    match version {
        Version::Ordered => whole_tree(alloc, count, nodes.as_slice()),
        Version::Numbered => all_reached(alloc, nodes),
    }
}

/// The certificate that a text says, in one of the two versions. In version 1 the order of the
/// nodes tells which node follows, and gives it its number.
///
/// It goes once over the bytes, and takes memory by the number of the bytes, however large the
/// numbers are that the text says.
pub fn read_cert(alloc: Global, bytes: &[u8]) -> Result<Cert, CertReadFault>
    ensures cert { IfOk result (λ nodes. CertText bytes.now nodes) }

    // A text of a certificate is read, if memory suffices.
    ensures only { (nodes : List Node) → CertText bytes.now nodes → UnlessNoMemory result (Ok nodes) }

    // A fault is the text's, and a text with a fault has this answer.
    ensures fault { IfErr result (λ f. (f ≡ out_of_memory) ⊎ CertFails bytes.now f) }
    ensures exact { (f : CertReadFault) → CertFails bytes.now f → UnlessNoMemory result (Err f) }
{
    read_text(alloc, bytes)
}
