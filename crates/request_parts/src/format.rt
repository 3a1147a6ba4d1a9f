// The requests `fmt-domain` and `fmt-problem`.
ghost use Rattle.std.specs.Prelude.{◌≤◌, length};
ghost use Rattle.bddl_model.specs.Canonical.{domain_text, problem_text};
ghost use Rattle.bddl_model.specs.Outcome.{DomainThen, ProblemThen, Says};
ghost use Rattle.io_edge.specs.Outside.{Counts};
ghost use Rattle.request_parts.specs.Ends.{Writes, content_told, is_write_fault};

use crate::game_texts::{domain_tree, problem_tree};
use crate::refusal::{Close, Content, Stop};
use bddl_reader::{print_domain, print_problem};
use io_edge::{Sink, put_text};
use std::alloc::Global;

/// Writes the canonical text of a domain.
pub fn format_domain<K: Sink>(
    alloc: Global,
    domain: &[u8],
    out: &mut K,
) -> Result<Close, Stop<Content>>
    requires { length domain.now ≤ 1048576 }
    ensures written { Writes content_told (DomainThen domain.now (λ tree. Says (domain_text tree)))
        (K.written out.old) (K.written out.new) result }
    ensures cause { Counts (K.faults out.old) (K.faults out.new) (is_write_fault result) }
{
    let tree = domain_tree(alloc, domain)?;
    let text = print_domain(alloc, &tree)?;
    put_text(out, &text)?;
    Ok(Close::Done)
}

/// Writes the canonical text of a problem.
pub fn format_problem<K: Sink>(
    alloc: Global,
    problem: &[u8],
    out: &mut K,
) -> Result<Close, Stop<Content>>
    requires { length problem.now ≤ 1048576 }
    ensures written { Writes content_told (ProblemThen problem.now (λ tree. Says (problem_text tree)))
        (K.written out.old) (K.written out.new) result }
    ensures cause { Counts (K.faults out.old) (K.faults out.new) (is_write_fault result) }
{
    let tree = problem_tree(alloc, problem)?;
    let text = print_problem(alloc, &tree)?;
    put_text(out, &text)?;
    Ok(Close::Done)
}
