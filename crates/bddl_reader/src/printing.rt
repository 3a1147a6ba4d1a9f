// The canonical texts of domains and problems.

ghost use Rattle.std.specs.Prelude.{◌≡◌, ◌++◌, IsTrue, IfOk, OnOk, map, flat_map, codes, decimal};
ghost use Rattle.bddl_model.specs.Grammar.{domain, problem};
ghost use Rattle.bddl_model.specs.Reading.{Reads};
ghost use Rattle.bddl_model.specs.Canonical.{listed, line, action_text, domain_text, goals_text, first_text, problem_text, domain_can_be_spelled, problem_can_be_spelled};

mod atoms;
mod cells;
mod list;
mod terms;
mod words;

use bddl_model::{ActionText, DomainText, NoMemory, ProblemText, Side, TestList};
use list::{Printed, push_list};
use std::alloc::Global;
use words::{push, push_number};

/// The canonical text of a domain, which reads as the domain.
pub fn print_domain(alloc: Global, tree: &DomainText) -> Result<Vec<u8>, NoMemory>
    requires { IsTrue (domain_can_be_spelled tree.now) }
    ensures text { IfOk result (λ text. text.items ≡ domain_text tree.now) }
    ensures read { IfOk result (λ text. Reads domain text.items tree.now) }
{
    let mut text = Vec::new(alloc);
    push_domain(&mut text, tree)?;
    Ok(text)
}

/// The canonical text of a problem, which reads as the problem.
pub fn print_problem(alloc: Global, tree: &ProblemText) -> Result<Vec<u8>, NoMemory>
    requires { IsTrue (problem_can_be_spelled tree.now) }
    ensures text { IfOk result (λ text. text.items ≡ problem_text tree.now) }
    ensures read { IfOk result (λ text. Reads problem text.items tree.now) }
{
    let mut text = Vec::new(alloc);
    push_problem(&mut text, tree)?;
    Ok(text)
}

fn push_domain(text: &mut Vec<u8>, domain: &DomainText) -> Result<(), NoMemory>
    ensures { OnOk result (text.new.items ≡ text.old.items ++ domain_text domain.now) }
{
    push(text, b"#blackactions\n")?;
    push_actions(text, domain.black.as_slice())?;
    push(text, b"#whiteactions\n")?;
    push_actions(text, domain.white.as_slice())
}

fn push_actions(text: &mut Vec<u8>, actions: &[ActionText]) -> Result<(), NoMemory>
    ensures { OnOk result (text.new.items ≡ text.old.items ++ flat_map action_text actions.now) }
{
    for action in actions {
        push_action(text, action)?;
    }
    Ok(())
}

fn push_action(text: &mut Vec<u8>, action: &ActionText) -> Result<(), NoMemory>
    ensures { OnOk result (text.new.items ≡ text.old.items ++ action_text action.now) }
{
    push_name_line(text, action.name.as_slice())?;
    push(text, b":parameters (?x, ?y)\n")?;
    push_list_line(text, b":precondition ", action.before.as_slice())?;
    push_list_line(text, b":effect ", action.effects.as_slice())
}

fn push_name_line(text: &mut Vec<u8>, name: &[u8]) -> Result<(), NoMemory>
    ensures { OnOk result (text.new.items ≡ text.old.items ++ line (codes ":action " ++ name.now)) }
{
    push(text, b":action ")?;
    push(text, name)?;
    push(text, b"\n")
}

// A list behind a word.
fn push_list_line<P: Printed>(text: &mut Vec<u8>, word: &[u8], items: &[P]) -> Result<(), NoMemory>
    ensures { OnOk result (text.new.items ≡ text.old.items ++ line (word.now ++ listed (map P.text_of items.now))) }
{
    push(text, word)?;
    push_list(text, items)?;
    push(text, b"\n")
}

fn push_problem(text: &mut Vec<u8>, problem: &ProblemText) -> Result<(), NoMemory>
    ensures { OnOk result (text.new.items ≡ text.old.items ++ problem_text problem.now) }
{
    push_size(text, problem.width, problem.height)?;
    push_list_line(text, b"#init ", problem.init.as_slice())?;
    push_depth(text, problem.depth)?;
    push_first(text, problem.first)?;
    push_goals(text, problem.black.as_slice(), problem.white.as_slice())
}

fn push_size(text: &mut Vec<u8>, width: u32, height: u32) -> Result<(), NoMemory>
    ensures { OnOk result (text.new.items ≡ text.old.items ++ line (codes "#boardsize " ++ (decimal width ++ (codes " " ++ decimal height)))) }
{
    push(text, b"#boardsize ")?;
    push_number(text, width)?;
    push(text, b" ")?;
    push_number(text, height)?;
    push(text, b"\n")
}

fn push_depth(text: &mut Vec<u8>, depth: u32) -> Result<(), NoMemory>
    ensures { OnOk result (text.new.items ≡ text.old.items ++ line (codes "#depth " ++ decimal depth)) }
{
    push(text, b"#depth ")?;
    push_number(text, depth)?;
    push(text, b"\n")
}

fn push_first(text: &mut Vec<u8>, first: Side) -> Result<(), NoMemory>
    ensures { OnOk result (text.new.items ≡ text.old.items ++ first_text first) }
{
    match first {
        Side::Black => Ok(()),
        Side::White => push(text, b"#first white\n"),
    }
}

fn push_goals(text: &mut Vec<u8>, black: &[TestList], white: &[TestList]) -> Result<(), NoMemory>
    ensures { OnOk result (text.new.items ≡ text.old.items ++ (line (codes "#blackgoals") ++ (goals_text black.now ++ (line (codes "#whitegoals") ++ goals_text white.now)))) }
{
    push(text, b"#blackgoals\n")?;
    push_goal_lines(text, black)?;
    push(text, b"#whitegoals\n")?;
    push_goal_lines(text, white)
}

fn push_goal_lines(text: &mut Vec<u8>, lines: &[TestList]) -> Result<(), NoMemory>
    ensures { OnOk result (text.new.items ≡ text.old.items ++ goals_text lines.now) }
{
    for tests in lines {
        push_list(text, tests.as_slice())?;
        push(text, b"\n")?;
    }
    Ok(())
}
