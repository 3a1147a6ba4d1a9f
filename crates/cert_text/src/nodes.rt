// The lines of nodes, one behind the other.
ghost use Rattle.std.specs.Prelude.{◌≡◌, ◌+◌, ◌-◌, ◌*◌, ◌^◌, ◌<◌, ◌≤◌, ◌⊎◌, ◌++◌, length, IfOk, IfErr};
ghost use Rattle.std.specs.List.{list_all};
ghost use Rattle.bddl_model.specs.declared.certificate.CertReadFault.TheVariants.{NoMemory as out_of_memory};
ghost use Rattle.bddl_model.specs.CertificateGraph.{is_later, named_by};
ghost use Rattle.bddl_model.specs.CertificateText.{header_text};
ghost use Rattle.bddl_model.specs.CertificateFaults.{CertFails, IsCount, ReadsTo};
ghost use Rattle.cert_text.specs.Nodes as spec;
ghost use Rattle.cert_text.specs.Nodes.{Reads};
ghost use Rattle.cert_text.specs.Reading.{version_of};

use crate::header::Version;
use crate::line::line;
use crate::stop::Stop;
use bddl_model::{Answered, Cert, CertReadFault, Node};
use std::alloc::Global;

fn all_later(answers: &[Answered], node: u64, count: u64) -> bool
    ensures { result ≡ list_all (is_later count) (named_by node answers.now) }
{
    for answer in answers {
        if answer.next.0 <= node || answer.next.0 >= count {
            return false;
        }
    }
    true
}

// Whether the next numbers that the line of a node says are later, and below the count.
fn is_later(version: Version, count: u64, number: u64, node: &Node) -> bool
    ensures { result ≡ spec.node_later (version_of version) count number node.now }
{
    match (version, node) {
        (Version::Ordered, _) => true,
        (Version::Numbered, Node::Goal) => true,
        (Version::Numbered, Node::Black { next, .. }) => number < next.0 && next.0 < count,
        (Version::Numbered, Node::White { replies }) => {
            all_later(replies.as_slice(), number, count)
        }
    }
}

// The line of the node with this number.
fn next_node<'a>(
    alloc: Global,
    version: Version,
    count: u64,
    number: u64,
    bytes: &'a [u8],
) -> Result<(Node, &'a [u8]), CertReadFault>
    ensures { Reads (λ x. (x.0, x.1.now)) result (spec.node_at (version_of version) count number bytes.now) }
{
    if bytes.is_empty() {
        return Err(CertReadFault::EndsEarly { node: number });
    }
    match line(alloc, version, bytes) {
        Ok((node, rest)) => {
            if is_later(version, count, number, &node) {
                return Ok((node, rest));
            }
            Err(CertReadFault::BadNext { node: number })
        }
        Err(Stop::Stuck) => Err(CertReadFault::NotALine { node: number }),
        Err(Stop::NoMemory) => Err(CertReadFault::NoMemory),
    }
}

// Behind the header. The replies of all nodes are less than 128 bits count.
fn first_due(version: Version, count: u64) -> u128
    ensures { result ≡ spec.first_due (version_of version) count }
{
    match version {
        Version::Ordered => 1,
        Version::Numbered => count as u128,
    }
}

// How many nodes or trees are due behind a node, by how many were with it.
fn due_behind(version: Version, node: &Node, due: u128) -> u128
    requires some { 0 < due }
    requires few { due < 2 ^ 127 }
    ensures { result ≡ spec.due_next (version_of version) node.now (due - 1) }
{
    match (version, node) {
        (Version::Ordered, Node::Black { .. }) => due,
        (Version::Ordered, Node::White { replies }) => due - 1 + replies.as_slice().len() as u128,
        _ => due - 1,
    }
}

/// The nodes behind a header that says this count, as far as they are due, and the bytes behind
/// them.
pub fn read_nodes<'a>(
    alloc: Global,
    version: Version,
    count: u64,
    bytes: &'a [u8],
) -> Result<(Cert, &'a [u8]), CertReadFault>
    requires { IsCount (version_of version) count }
    ensures nodes { IfOk result (λ r. ReadsTo (header_text (version_of version) count ++ bytes.now) (version_of version) count r.0 0 r.1.now) }
    ensures fault { IfErr result (λ f. (f ≡ out_of_memory) ⊎ CertFails (header_text (version_of version) count ++ bytes.now) f) }
{
    let mut nodes = Cert::new(alloc);
    let mut rest = bytes;
    let mut due = first_due(version, count);
    'nodes: while due > 0 {
        let number = nodes.as_slice().len() as u64;
        let (node, behind) = next_node(alloc, version, count, number, rest)?;
        due = due_behind(version, &node, due);
        nodes.push(node)?;
        rest = behind;
    }
    Ok((nodes, rest))
}
