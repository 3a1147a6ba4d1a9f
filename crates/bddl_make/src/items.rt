// The parts of both games.
ghost use Rattle.std.specs.Prelude.{◌≡◌, ◌≤ℤ◌, pos, negsuc, IfOk};
ghost use Rattle.bddl_model.specs.Trial as trial;

use bddl_model::{
    ActionList, ActionText, AtomList, AtomText, DomainText, Mark, NameText, NoMemory, TermText,
    TestList, TestText,
};
use std::alloc::Global;

/// An atom that is so many columns and rows from the anchor.
fn atom_at(mark: Mark, x: i32, y: i32) -> AtomText
    ensures { result ≡ trial.atom_at mark x y }
{
    AtomText {
        mark,
        x: TermText::Shift(x),
        y: TermText::Shift(y),
    }
}

pub fn test_at(mark: Mark, x: i32, y: i32) -> TestText
    ensures { result ≡ trial.test_at mark x y }
{
    TestText {
        atom: atom_at(mark, x, y),
        negated: false,
    }
}

fn name(alloc: Global) -> Result<NameText, NoMemory>
    ensures { IfOk result (λ name. name ≡ trial.occupy_name) }
{
    let mut name = NameText::new(alloc);
    for byte in b"occupy" {
        name.push(*byte)?;
    }
    Ok(name)
}

fn occupy(alloc: Global, mark: Mark) -> Result<ActionText, NoMemory>
    ensures { IfOk result (λ action. action ≡ trial.occupy mark) }
{
    let mut before = TestList::new(alloc);
    before.push(test_at(Mark::Free, 0, 0))?;
    let mut effects = AtomList::new(alloc);
    effects.push(atom_at(mark, 0, 0))?;
    Ok(ActionText {
        name: name(alloc)?,
        before,
        effects,
    })
}

fn actions(alloc: Global, mark: Mark) -> Result<ActionList, NoMemory>
    ensures { IfOk result (λ actions. actions ≡ trial.occupies mark) }
{
    let mut actions = ActionList::new(alloc);
    actions.push(occupy(alloc, mark)?)?;
    Ok(actions)
}

/// Each side puts a stone on an open cell.
pub fn domain(alloc: Global) -> Result<DomainText, NoMemory>
    ensures { IfOk result (λ domain. domain ≡ trial.occupying) }
{
    Ok(DomainText {
        black: actions(alloc, Mark::Black)?,
        white: actions(alloc, Mark::White)?,
    })
}
