// The whole check.
ghost use Rattle.std.specs.Prelude.{◌≡◌, ◌≤◌, ◌<◌, ◌⊎◌, suc, true, None, Some, Ok, Err, All, length, replicate, IfNone, IfOk, IfErr, OnOk};
ghost use Rattle.std.specs.List.{list_all};
ghost use Rattle.bddl_model.specs.declared.certificate.CertFault.{CertFault as SomeFault};
ghost use Rattle.bddl_model.specs.declared.certificate.CertFault.TheVariants.{NoMemory as out_of_memory};
ghost use Rattle.bddl_model.specs.Certificate.{cert_fault, valid};
ghost use Rattle.bddl_model.specs.CertificateGraph.{answers, links, namings, is_later, linked};
ghost use Rattle.cert_checker.specs.declared.known.Known.TheVariants.{Unnamed};
ghost use Rattle.cert_checker.specs.Benches.{IsBench};
ghost use Rattle.cert_checker.specs.Checking.{with_answers, fault_known, check_from, IsAnswer, IsLater, UnlessNoMemory};
ghost use Rattle.cert_checker.specs.Places.{known_at, place_at, place_in, IsTable, IsNamedBelow};

use crate::bench::Bench;
use crate::known::Known;
use crate::naming::name_answers;
use crate::node::node_fault;
use crate::places::go_to;
use crate::turn::Turn;
use bddl_model::{Answered, CertFault, NoMemory, Node};
use offset_check::Setup;
use std::alloc::Global;

// Names the nodes that the answers of the node here lead to.
fn name_all(
    setup: &Setup,
    table: &mut [Known],
    number: u64,
    turn: Turn,
    bench: &mut Bench,
    node: &Node,
)
    requires table { IsTable setup.now table.old }
    requires named { IsNamedBelow (suc number) table.old }
    requires place { place_at turn bench.old.here.marks ≡ place_in setup.now table.old number }
    requires bench { IsBench setup.now.game bench.old }
    requires answers { All (IsAnswer setup.now (length table.old) number (place_at turn bench.old.here.marks)) (answers node.now) }
    ensures entries { table.new ≡ with_answers setup.now number (place_at turn bench.old.here.marks) (answers node.now) table.old }
    ensures len { length table.new ≡ length table.old }
    ensures table { IsTable setup.now table.new }
    ensures named { IsNamedBelow (suc number) table.new }
    ensures bench { IsBench setup.now.game bench.new }
{
    match node {
        Node::Goal => {}
        Node::Black { mv, next } => {
            let answer = Answered {
                mv: *mv,
                next: *next,
            };
            name_answers(setup, table, number, turn, bench, &[answer])
        }
        Node::White { replies } => {
            name_answers(setup, table, number, turn, bench, replies.as_slice())
        }
    }
}

// Checks a node by what the nodes before it tell, and names the nodes that its answers lead to.
fn check_node(
    setup: &Setup,
    table: &mut [Known],
    at: usize,
    bench: &mut Bench,
    node: &Node,
) -> Option<CertFault>
    requires table { IsTable setup.now table.old }
    requires named { IsNamedBelow at table.old }
    requires inside { at < length table.old }
    requires later { All (IsLater (length table.old) at) (answers node.now) }
    requires bench { IsBench setup.now.game bench.old }
    ensures fault { result ≡ fault_known setup.now at (place_in setup.now table.old at) node.now (known_at table.old at) }
    ensures entries { IfNone result (table.new ≡ with_answers setup.now at (place_in setup.now table.old at) (answers node.now) table.old) }
    ensures len { length table.new ≡ length table.old }
    ensures table { IfNone result (IsTable setup.now table.new) }
    ensures named { IfNone result (IsNamedBelow (suc at) table.new) }
    ensures bench { IsBench setup.now.game bench.new }
{
    if table[at] == Known::Two {
        return Some(CertFault::TwoPlaces { node: at as u64 });
    }
    let turn = go_to(setup, table, at, &mut bench.here);
    let (game, number) = (&setup.game, at as u64);
    if let Some(fault) = node_fault(game, number, &bench.here, turn, node, &mut bench.moves) {
        return Some(fault);
    }
    name_all(setup, table, number, turn, bench, node);
    None
}

// The first fault, by one pass over the nodes.
fn first_fault(
    setup: &Setup,
    table: &mut [Known],
    bench: &mut Bench,
    nodes: &[Node],
) -> Option<CertFault>
    requires fresh { table.old ≡ replicate (length nodes.now) Unnamed }
    requires order { list_all (is_later (length nodes.now)) (namings (links nodes.now)) ≡ true }
    requires bench { IsBench setup.now.game bench.old }
    ensures { result ≡ check_from setup.now 0 table.old nodes.now }
{
    for (at, node) in nodes.iter().enumerate() {
        if let Some(fault) = check_node(setup, table, at, bench, node) {
            return Some(fault);
        }
    }
    None
}

// The first fault, with a table and boards of its own.
fn fault_of(alloc: Global, setup: &Setup, nodes: &[Node]) -> Result<Option<CertFault>, NoMemory>
    requires { linked (links nodes.now) ≡ true }
    ensures { IfOk result (λ fault. cert_fault setup.now nodes.now ≡ fault) }
{
    let mut table = vec![in alloc; Known::Unnamed; nodes.len()]?;
    let mut bench = Bench::for_setup(alloc, setup)?;
    Ok(first_fault(setup, &mut table, &mut bench, nodes))
}

/// Whether the certificate is valid, or its first fault. Of each node it is asked first whether all its
/// namings lead to one place, and then whether the node is right at that place.
///
/// The check goes once over the nodes and keeps one small entry for each. It finds a node's board again
/// by playing the moves of first namings from the start board, at most as many as there are plies. It
/// takes all its memory when it begins.
pub fn check_cert(alloc: Global, setup: &Setup, nodes: &[Node]) -> Result<(), CertFault>
    requires { linked (links nodes.now) ≡ true }
    ensures valid { OnOk result (valid setup.now nodes.now ≡ true) }

    // A valid certificate is found to be so, if memory suffices.
    ensures only { valid setup.now nodes.now ≡ true → UnlessNoMemory result (Ok tt) }

    // A fault is the certificate's first, and a certificate with a fault has this answer.
    ensures fault { IfErr result (λ f. (f ≡ out_of_memory) ⊎ (cert_fault setup.now nodes.now ≡ Some f)) }
    ensures exact { (f : SomeFault) → cert_fault setup.now nodes.now ≡ Some f → UnlessNoMemory result (Err f) }
{
    match fault_of(alloc, setup, nodes)? {
        None => Ok(()),
        Some(fault) => Err(fault),
    }
}
