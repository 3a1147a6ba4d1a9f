// The request `trial`.
ghost use Rattle.std.specs.Prelude.{◌≡◌, ◌≤◌, IfOk, string_bytes};
ghost use Rattle.bddl_make.specs.Kinds.{trial_of};
ghost use Rattle.bddl_model.specs.Outcome.{TrialEnds};
ghost use Rattle.bddl_model.specs.Setup.{setup_of};
ghost use Rattle.bddl_model.specs.Size as sizes;
ghost use Rattle.bddl_model.specs.Trial.{occupying};
ghost use Rattle.bddl_model.specs.Verdicts.{trial_text};
ghost use Rattle.bddl_requests.specs.Decisions.{decided_text, trial_close};
ghost use Rattle.bddl_requests.specs.Summaries as spec;
ghost use Rattle.io_edge.specs.Outside.{Counts};
ghost use Rattle.request_parts.specs.Ends.{Writes, content_told, is_write_fault};

use crate::solve::text_of;
use bddl_make::{TrialKind, make_texts, trial_games_have_no_fault};
use bddl_model::{NoMemory, Steps};
use io_edge::{Sink, put_text};
use lifted_encode::gate_limit;
use offset_check::Setup;
use qbf_search::Decider;
use request_parts::{Close, Content, Stop, read_game};
use std::alloc::{AllocError, Global};
use strategy::{Decided, compile_game, decide};

/// What the summary tells of the large game's form.
#[derive(Clone, Copy)]
struct FormSize {
    inputs: u32,
    limit: u64,
}

/// Makes both games of a number, compiles the large one, decides the small one in at most so many
/// steps, and writes the summary.
pub fn trial<K: Sink>(
    alloc: Global,
    number: u64,
    budget: u64,
    decider: &mut Box<dyn Decider>,
    out: &mut K,
) -> Result<Close, Stop<Content>>
    ensures written { Writes content_told (TrialEnds number budget) (K.written out.old) (K.written out.new) result }
    ensures cause { Counts (K.faults out.old) (K.faults out.new) (is_write_fault result) }
{
    let large = made(alloc, number, TrialKind::Large)?;
    let size = form_size(alloc, &large)?;
    let small = made(alloc, number, TrialKind::Small)?;
    let mut steps = Steps::new(budget);
    let (first, depth) = (small.first, small.depth);
    let decided = decide(
        alloc,
        &small.game,
        &small.board,
        first,
        depth,
        decider,
        &mut steps,
    )?;
    let text = summary(alloc, &large, size, &small, decided)?;
    put_text(out, text.as_bytes())?;
    Ok(close_of(decided))
}

// The setup of a game that is made as texts, read and checked. Such texts have no fault, so that only
// memory may be wanting.
fn made(alloc: Global, number: u64, kind: TrialKind) -> Result<Setup, NoMemory>
    ensures { IfOk result (λ s. s ≡ setup_of occupying (trial_of kind number)) }
{
    let texts = make_texts(alloc, number, kind)?;
    trial_games_have_no_fault();
    let Ok(setup) = read_game(alloc, &texts.domain, &texts.problem) else {
        return Err(NoMemory);
    };
    Ok(setup)
}

// Compiles a game, whose gates are within the limit.
fn form_size(alloc: Global, setup: &Setup) -> Result<FormSize, NoMemory>
    ensures inputs { IfOk result (λ s. s.inputs ≡ sizes.inputs_of setup.now) }
    ensures limit { IfOk result (λ s. s.limit ≡ sizes.gate_limit setup.now) }
{
    let (first, depth) = (setup.first, setup.depth);
    let compiled = compile_game(alloc, &setup.game, &setup.board, first, depth)?;
    let inputs = compiled.layout.inputs;
    let gates = compiled
        .form
        .prefix()
        .as_slice()
        .len()
        .saturating_sub(inputs as usize);
    let limit = gate_limit(&setup.game, &setup.board, first, depth);
    prove!(gates as u64 <= limit);
    Ok(FormSize { inputs, limit })
}

fn large_line(alloc: Global, large: &Setup) -> Result<String, AllocError>
    ensures { IfOk result (λ text. string_bytes text ≡ spec.large_line large.now) }
{
    let (width, height, depth) = (large.game.width(), large.game.height(), large.depth);
    format!(in alloc; "large {width} {height} {depth}")
}

fn form_lines(alloc: Global, size: FormSize) -> Result<String, AllocError>
    ensures { IfOk result (λ text. string_bytes text ≡ spec.form_lines size.inputs size.limit) }
{
    let FormSize { inputs, limit } = size;
    format!(in alloc; "inputs {inputs}\nlimit {limit}\ngates within limit")
}

fn small_line(alloc: Global, small: &Setup, decided: Decided) -> Result<String, AllocError>
    ensures { IfOk result (λ text. string_bytes text ≡ spec.small_line small.now (decided_text decided)) }
{
    let depth = small.depth;
    let verdict = text_of(decided);
    format!(in alloc; "small {depth} {verdict}")
}

fn lines(alloc: Global, first: &str, second: &str, third: &str) -> Result<String, AllocError>
    ensures { IfOk result (λ text. string_bytes text ≡ spec.lines first.now second.now third.now) }
{
    format!(in alloc; "{first}\n{second}\n{third}")
}

fn summary(
    alloc: Global,
    large: &Setup,
    size: FormSize,
    small: &Setup,
    decided: Decided,
) -> Result<String, AllocError>
    requires inputs { size.inputs ≡ sizes.inputs_of large.now }
    requires limit { size.limit ≡ sizes.gate_limit large.now }
    ensures { IfOk result (λ text. string_bytes text ≡ trial_text large.now small.now (decided_text decided)) }
{
    let first = large_line(alloc, large)?;
    let second = form_lines(alloc, size)?;
    let third = small_line(alloc, small, decided)?;
    lines(alloc, first.as_str(), second.as_str(), third.as_str())
}

fn close_of(decided: Decided) -> Close
    ensures { result ≡ trial_close decided }
{
    match decided {
        Decided::Win | Decided::NoWin => Close::Done,
        Decided::Spent => Close::Spent,
    }
}
