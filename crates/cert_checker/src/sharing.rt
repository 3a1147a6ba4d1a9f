// The shared form of a certificate: the least node of each place, breadth first.
ghost use Rattle.std.specs.Prelude.{◌≡◌, ◌<◌, ◌^◌, true, length, All, IfOk};
ghost use Rattle.bddl_model.specs.Certificate.{valid, IsLike, IsSharedForm};
ghost use Rattle.bddl_model.specs.CertificateGraph.{answers};
ghost use Rattle.cert_checker.specs.LeastNodes.{AreLeast};
ghost use Rattle.cert_checker.specs.Sharing.{IsRenamed, AreRenamed};

use crate::least::least_nodes;
use bddl_model::{Answered, Cert, NoMemory, Node, NodeNo, ReplyList};
use indexmap::IndexSet;
use offset_check::Setup;
use std::alloc::Global;

// The answer with the number that the least node of its next node's place has in the order.
fn renamed_answer(
    order: &mut IndexSet<u64>,
    least: &[u64],
    answer: Answered,
) -> Result<Answered, NoMemory>
    requires inside { answer.next.0 < length least.now }
    ensures { IfOk result (λ new. IsRenamed least.now answer new order.old.keys order.new.keys) }
{
    let (number, _) = order.insert_full(least[answer.next.0 as usize])?;
    Ok(Answered {
        mv: answer.mv,
        next: NodeNo(number as u64),
    })
}

fn renamed_replies(
    alloc: Global,
    order: &mut IndexSet<u64>,
    least: &[u64],
    replies: &[Answered],
) -> Result<ReplyList, NoMemory>
    requires inside { All (λ a. a.next.0 < length least.now) replies.now }
    ensures { IfOk result (λ new. AreRenamed least.now replies.now new order.old.keys order.new.keys) }
{
    let mut renamed = ReplyList::new(alloc);
    for reply in replies {
        let answer = renamed_answer(order, least, *reply)?;
        renamed.push(answer)?;
    }
    Ok(renamed)
}

fn renamed_node(
    alloc: Global,
    order: &mut IndexSet<u64>,
    least: &[u64],
    node: &Node,
) -> Result<Node, NoMemory>
    requires inside { All (λ a. a.next.0 < length least.now) (answers node.now) }
    ensures like { IfOk result (λ new. IsLike new node.now) }
    ensures renamed { IfOk result (λ new. AreRenamed least.now (answers node.now) (answers new) order.old.keys order.new.keys) }
{
    match node {
        Node::Goal => Ok(Node::Goal),
        Node::Black { mv, next } => {
            let answer = Answered {
                mv: *mv,
                next: *next,
            };
            let Answered { mv, next } = renamed_answer(order, least, answer)?;
            Ok(Node::Black { mv, next })
        }
        Node::White { replies } => {
            let replies = renamed_replies(alloc, order, least, replies.as_slice())?;
            Ok(Node::White { replies })
        }
    }
}

// The least nodes that the start leads to, each under its new number.
fn share_least(
    alloc: Global,
    setup: &Setup,
    nodes: &[Node],
    least: &[u64],
) -> Result<Cert, NoMemory>
    requires valid { valid setup.now nodes.now ≡ true }
    requires least { AreLeast setup.now nodes.now least.now }
    ensures shared { IfOk result (λ shared. IsSharedForm setup.now nodes.now shared) }
    ensures small { IfOk result (λ shared. length shared < 2 ^ 64) }
{
    let mut order = IndexSet::new(alloc);
    order.insert(0)?;
    let mut shared = Cert::new(alloc);
    'nodes: while shared.as_slice().len() < order.len() {
        let Some(number) = order.get_index(shared.as_slice().len()) else {
            unreachable!()
        };
        let node = &nodes[*number as usize];
        let renamed = renamed_node(alloc, &mut order, least, node)?;
        shared.push(renamed)?;
    }
    Ok(shared)
}

/// The shared form of a valid certificate: one node for each place that the start leads to, the least of
/// those that stand there, numbered breadth first.
pub fn share_cert(alloc: Global, setup: &Setup, nodes: &[Node]) -> Result<Cert, NoMemory>
    requires valid { valid setup.now nodes.now ≡ true }
    ensures shared { IfOk result (λ shared. IsSharedForm setup.now nodes.now shared) }
    ensures small { IfOk result (λ shared. length shared < 2 ^ 64) }
{
    let least = least_nodes(alloc, setup, nodes)?;
    share_least(alloc, setup, nodes, &least)
}
