// The request `qsolve`.
ghost use Rattle.std.specs.Prelude.{◌≡◌, ◌≤◌, length};
ghost use Rattle.bddl_model.specs.Outcome.{FormulaThen, FormulaSolveEnds};
ghost use Rattle.io_edge.specs.Outside.{Counts};
ghost use Rattle.request_parts.specs.Ends.{Writes, content_told, is_write_fault};
ghost use Rattle.bddl_requests.specs.Decisions.{IsTold, verdict_close};

use bddl_model::{Steps, Verdict};
use io_edge::Sink;
use qbf_search::{Answer, Decider, solve};
use qdimacs_io::{QdimacsRead, write_answer};
use request_parts::{Close, Content, Stop, read_formula};
use std::alloc::Global;

/// Decides the formula of a text in at most so many steps, and writes the answer lines.
pub fn solve_formula<K: Sink>(
    alloc: Global,
    text: &[u8],
    budget: u64,
    decider: &mut Box<dyn Decider>,
    out: &mut K,
) -> Result<Close, Stop<Content>>
    requires { length text.now ≤ 67108864 }
    ensures written { Writes content_told (FormulaThen text.now (FormulaSolveEnds budget))
        (K.written out.old) (K.written out.new) result }
    ensures cause { Counts (K.faults out.old) (K.faults out.new) (is_write_fault result) }
{
    let read = read_formula(alloc, text)?;
    let mut steps = Steps::new(budget);
    match solve(alloc, &read.form, decider, &mut steps)? {
        Answer::True { first } => tell(Verdict::True, &read, &first, out),
        Answer::False { first } => tell(Verdict::False, &read, &first, out),
        Answer::Spent => tell(Verdict::Spent, &read, &[], out),
    }
}

// Writes the answer lines, with these values of the first variables.
fn tell<K: Sink>(
    verdict: Verdict,
    read: &QdimacsRead,
    first: &[bool],
    out: &mut K,
) -> Result<Close, Stop<Content>>
    requires { length first.now ≤ length read.now.form.prefix }
    ensures written { Writes content_told (IsTold verdict read.now.variables read.now.clauses read.now.form.prefix first.now)
        (K.written out.old) (K.written out.new) result }
    ensures cause { Counts (K.faults out.old) (K.faults out.new) (is_write_fault result) }
{
    let prefix = read.form.prefix();
    write_answer(verdict, read.variables, read.clauses, prefix, first, out)?;
    Ok(close_of(verdict))
}

fn close_of(verdict: Verdict) -> Close
    ensures { result ≡ verdict_close verdict }
{
    match verdict {
        Verdict::True => Close::Yes,
        Verdict::False => Close::No,
        Verdict::Spent => Close::Spent,
    }
}
