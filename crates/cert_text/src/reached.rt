// Whether every node is named.
ghost use Rattle.std.specs.Prelude.{◌≡◌, ◌<◌, ◌≤◌, ℕ, true, false, length, All, IfOk, MatchOption, slice_index_or, slice_set};
ghost use Rattle.bddl_model.specs.CertificateGraph.{answers};
ghost use Rattle.cert_text.specs.Reached.{AllMarked, AllNamed, AreBelow, AreMarked, IsFirstUnmarked, IsFirstUnnamed, Marks};

use bddl_model::{Answered, NoMemory, Node, NodeNo};
use std::alloc::Global;

fn mark(marks: &mut Vec<bool>, number: NodeNo)
    requires { number.0 < length marks.old.items }
    ensures { marks.new.items ≡ slice_set marks.old.items number.0 true }
{
    marks[number.0 as usize] = true;
}

fn mark_answers(marks: &mut Vec<bool>, answers: &[Answered])
    requires { AreBelow (length marks.old.items) answers.now }
    ensures marks { Marks answers.now marks.old.items marks.new.items }
    ensures len { length marks.new.items ≡ length marks.old.items }
{
    for answer in answers {
        mark(marks, answer.next);
    }
}

// Marks the nodes that this one names.
fn mark_node(marks: &mut Vec<bool>, node: &Node)
    requires { AreBelow (length marks.old.items) (answers node.now) }
    ensures marks { Marks (answers node.now) marks.old.items marks.new.items }
    ensures len { length marks.new.items ≡ length marks.old.items }
{
    match node {
        Node::Goal => {}
        Node::Black { next, .. } => mark(marks, *next),
        Node::White { replies } => mark_answers(marks, replies.as_slice()),
    }
}

fn marks_of(alloc: Global, nodes: &[Node]) -> Result<Vec<bool>, NoMemory>
    requires { All (λ node. AreBelow (length nodes.now) (answers node)) nodes.now }
    ensures len { IfOk result (λ marks. length marks.items ≡ length nodes.now) }
    ensures marked { IfOk result (λ marks. AreMarked nodes.now marks.items) }
{
    let mut marks = vec![in alloc; false; nodes.len()]?;
    for node in nodes {
        mark_node(&mut marks, node);
    }
    Ok(marks)
}

fn first_unmarked(marks: &[bool]) -> Option<usize>
    ensures { MatchOption result (AllMarked marks.now (length marks.now)) (λ n. IsFirstUnmarked marks.now n) }
{
    for n in 1..marks.len() {
        if !marks[n] {
            return Some(n);
        }
    }
    None
}

/// The first node behind the root that no node names.
pub fn first_unnamed(alloc: Global, nodes: &[Node]) -> Result<Option<u64>, NoMemory>
    requires { All (λ node. AreBelow (length nodes.now) (answers node)) nodes.now }
    ensures { IfOk result (λ found. MatchOption found (AllNamed nodes.now (length nodes.now)) (λ n. IsFirstUnnamed nodes.now n)) }
{
    let marks = marks_of(alloc, nodes)?;
    match first_unmarked(&marks) {
        Some(n) => Ok(Some(n as u64)),
        None => Ok(None),
    }
}
