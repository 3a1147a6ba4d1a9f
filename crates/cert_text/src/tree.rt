// The numbers of next nodes, where the order of the nodes tells them.
ghost use Rattle.std.specs.Prelude.{◌≡◌, ◌≤◌, Some, length, reverse, IfOk};
ghost use Rattle.bddl_model.specs.CertificateGraph.{answers, links};
ghost use Rattle.bddl_model.specs.CertificateFaults.{trees_due};
ghost use Rattle.cert_text.specs.Trees as spec;

use bddl_model::{Answered, Cert, NoMemory, Node, NodeNo, ReplyList};
use std::alloc::Global;

// The answers with the roots of the trees that follow, the last of which is the first one's.
fn with_roots(
    alloc: Global,
    answers: &[Answered],
    roots: &mut Vec<NodeNo>,
) -> Result<ReplyList, NoMemory>
    requires { length answers.now ≤ length roots.old.items }
    ensures filled { IfOk result (λ replies. replies ≡ spec.with_roots answers.now (reverse roots.old.items)) }
    ensures left { IfOk result (λ _. reverse roots.new.items ≡ spec.roots_behind answers.now (reverse roots.old.items)) }
{
    let mut replies = ReplyList::new(alloc);
    for answer in answers {
        let next = roots.pop().unwrap();
        replies.push(Answered {
            mv: answer.mv,
            next,
        })?;
    }
    Ok(replies)
}

fn node_with_roots(alloc: Global, node: &Node, roots: &mut Vec<NodeNo>) -> Result<Node, NoMemory>
    requires { length (answers node.now) ≤ length roots.old.items }
    ensures filled { IfOk result (λ filled. filled ≡ spec.node_with_roots node.now (reverse roots.old.items)) }
    ensures left { IfOk result (λ _. reverse roots.new.items ≡ spec.roots_behind (answers node.now) (reverse roots.old.items)) }
{
    match node {
        Node::Goal => Ok(Node::Goal),
        Node::Black { mv, .. } => {
            let next = roots.pop().unwrap();
            Ok(Node::Black { mv: *mv, next })
        }
        Node::White { replies } => {
            let replies = with_roots(alloc, replies.as_slice(), roots)?;
            Ok(Node::White { replies })
        }
    }
}

// The nodes with their next numbers, the last one first.
fn backwards(alloc: Global, nodes: &[Node]) -> Result<Vec<Node>, NoMemory>
    requires { trees_due 1 (links nodes.now) ≡ Some 0 }
    ensures { IfOk result (λ filled. reverse filled.items ≡ (spec.trees_from 0 nodes.now).nodes) }
{
    let mut filled = Vec::new(alloc);
    let mut roots = Vec::new(alloc);
    let mut n = nodes.len();
    'nodes: while n > 0 {
        n -= 1;
        let node = node_with_roots(alloc, &nodes[n], &mut roots)?;
        filled.push(node)?;
        roots.push(NodeNo(n as u64))?;
    }
    Ok(filled)
}

fn in_order(alloc: Global, backwards: Vec<Node>) -> Result<Cert, NoMemory>
    ensures { IfOk result (λ nodes. nodes ≡ reverse backwards.items) }
{
    let mut backwards = backwards;
    let mut nodes = Cert::new(alloc);
    'nodes: while let Some(node) = backwards.pop() {
        nodes.push(node)?;
    }
    Ok(nodes)
}

/// The nodes of a tree, each with the number of its next node or nodes.
pub fn numbered(alloc: Global, nodes: &[Node]) -> Result<Cert, NoMemory>
    requires { trees_due 1 (links nodes.now) ≡ Some 0 }
    ensures { IfOk result (λ filled. filled ≡ (spec.trees_from 0 nodes.now).nodes) }
{
    in_order(alloc, backwards(alloc, nodes)?)
}
