// Both games as texts.
ghost use Rattle.std.specs.Prelude.{◌≡◌, ◌≤◌, length, IfOk};
ghost use Rattle.bddl_model.specs.Canonical.{domain_text, problem_text};
ghost use Rattle.bddl_model.specs.Grammar.{domain, problem};
ghost use Rattle.bddl_model.specs.Reading.{Reads};
ghost use Rattle.bddl_model.specs.Trial as trial;
ghost use Rattle.bddl_make.specs.Kinds.{trial_of};

use crate::items::domain;
use crate::large::large;
use crate::small::small;
use bddl_model::{NoMemory, ProblemText};
use bddl_reader::{print_domain, print_problem};
use std::alloc::Global;

/// Which of the two games of a number.
#[derive(Clone, Copy, Debug, PartialEq, Eq)]
pub enum TrialKind {
    Large,
    Small,
}

/// The canonical texts of a domain and of a problem.
#[derive(Debug, Drop)]
pub struct MadeTexts {
    pub domain: Vec<u8>,
    pub problem: Vec<u8>,
}

fn problem(alloc: Global, number: u64, kind: TrialKind) -> Result<ProblemText, NoMemory>
    ensures { IfOk result (λ problem. problem ≡ trial_of kind number) }
{
    match kind {
        TrialKind::Large => large(alloc, number),
        TrialKind::Small => small(alloc, number),
    }
}

/// Makes a trial game of a number.
pub fn make_texts(alloc: Global, number: u64, kind: TrialKind) -> Result<MadeTexts, NoMemory>
    ensures domain { IfOk result (λ made. made.domain.items ≡ domain_text trial.occupying) }
    ensures problem { IfOk result (λ made. made.problem.items ≡ problem_text (trial_of kind number)) }
    ensures read { IfOk result (λ made. Reads domain made.domain.items trial.occupying × Reads problem made.problem.items (trial_of kind number)) }
    ensures short { IfOk result (λ made. (length made.domain.items ≤ 1048576) × (length made.problem.items ≤ 1048576)) }
{
    let domain = domain(alloc)?;
    let problem = problem(alloc, number, kind)?;
    Ok(MadeTexts {
        domain: print_domain(alloc, &domain)?,
        problem: print_problem(alloc, &problem)?,
    })
}
