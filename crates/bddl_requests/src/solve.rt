// The request `solve`.
ghost use Rattle.std.specs.Prelude.{◌≡◌, ◌≤◌, length};
ghost use Rattle.bddl_model.specs.Outcome.{GameThen, SolveEnds};
ghost use Rattle.io_edge.specs.Outside.{Counts};
ghost use Rattle.request_parts.specs.Ends.{Writes, content_told, is_write_fault};
ghost use Rattle.bddl_requests.specs.Decisions.{decided_close, decided_text};

use bddl_model::Steps;
use io_edge::{Sink, put_text};
use qbf_search::Decider;
use request_parts::{Close, Content, Stop, read_game};
use std::alloc::Global;
use strategy::{Decided, decide};

/// Decides the game of two texts in at most so many steps, and writes what was found.
pub fn solve<K: Sink>(
    alloc: Global,
    domain: &[u8],
    problem: &[u8],
    budget: u64,
    decider: &mut Box<dyn Decider>,
    out: &mut K,
) -> Result<Close, Stop<Content>>
    requires domain_short { length domain.now ≤ 1048576 }
    requires problem_short { length problem.now ≤ 1048576 }
    ensures written { Writes content_told (GameThen domain.now problem.now (SolveEnds budget))
        (K.written out.old) (K.written out.new) result }
    ensures cause { Counts (K.faults out.old) (K.faults out.new) (is_write_fault result) }
{
    let setup = read_game(alloc, domain, problem)?;
    let mut steps = Steps::new(budget);
    let (first, depth) = (setup.first, setup.depth);
    let decided = decide(
        alloc,
        &setup.game,
        &setup.board,
        first,
        depth,
        decider,
        &mut steps,
    )?;
    put_text(out, text_of(decided).as_bytes())?;
    Ok(close_of(decided))
}

/// The line that tells what was decided.
pub fn text_of(decided: Decided) -> &'static str
    ensures { result.now ≡ decided_text decided }
{
    match decided {
        Decided::Win => "win\n",
        Decided::NoWin => "no win\n",
        Decided::Spent => "spent\n",
    }
}

fn close_of(decided: Decided) -> Close
    ensures { result ≡ decided_close decided }
{
    match decided {
        Decided::Win => Close::Yes,
        Decided::NoWin => Close::No,
        Decided::Spent => Close::Spent,
    }
}
