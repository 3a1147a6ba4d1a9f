// Atoms and tests of a text as those of a game, and their fixed numbers.
ghost use Rattle.std.specs.Prelude.{◌≡◌, map, IfOk};
ghost use Rattle.bddl_model.specs.Check.{term_fault, atoms_fault, tests_fault};
ghost use Rattle.bddl_model.specs.Setup.{term_of, atom_of, test_of, tests_of};
ghost use Rattle.offset_check.specs.Checks.{Checks};

use bddl_model::{Atom, AtomText, CheckFault, Item, NoMemory, Term, TermText, Test, TestText};
use std::alloc::Global;

fn term_of(side: u32, term: TermText) -> Term
    ensures { result ≡ term_of side term }
{
    match term {
        TermText::Shift(shift) => Term::Rel(shift),
        TermText::Number(number) => Term::Abs(number),
        TermText::Least => Term::Abs(1),
        TermText::Greatest => Term::Abs(side),
    }
}

fn atom_of(width: u32, height: u32, atom: AtomText) -> Atom
    ensures { result ≡ atom_of width height atom }
{
    Atom {
        mark: atom.mark,
        x: term_of(width, atom.x),
        y: term_of(height, atom.y),
    }
}

/// The atoms on a board of these sides.
pub fn atoms_of(
    alloc: Global,
    width: u32,
    height: u32,
    atoms: &[AtomText],
) -> Result<Vec<Atom>, NoMemory>
    ensures { IfOk result (λ made. made.items ≡ map (atom_of width height) atoms.now) }
{
    let mut made = Vec::with_capacity(alloc, atoms.len())?;
    for atom in atoms {
        made.push(atom_of(width, height, *atom))?;
    }
    Ok(made)
}

fn test_of(width: u32, height: u32, test: TestText) -> Test
    ensures { result ≡ test_of width height test }
{
    Test {
        atom: atom_of(width, height, test.atom),
        negated: test.negated,
    }
}

/// The tests on a board of these sides.
pub fn tests_of(
    alloc: Global,
    width: u32,
    height: u32,
    tests: &[TestText],
) -> Result<Vec<Test>, NoMemory>
    ensures { IfOk result (λ made. made.items ≡ tests_of width height tests.now) }
{
    let mut made = Vec::with_capacity(alloc, tests.len())?;
    for test in tests {
        made.push(test_of(width, height, *test))?;
    }
    Ok(made)
}

fn check_term(item: Item, side: u32, term: TermText) -> Result<(), CheckFault>
    ensures { Checks (term_fault item side term) result }
{
    match term {
        TermText::Number(said) if said < 1 || side < said => {
            Err(CheckFault::NumberOffBoard { item, said })
        }
        _ => Ok(()),
    }
}

/// Each fixed number is one of its side.
pub fn check_atoms(
    item: Item,
    width: u32,
    height: u32,
    atoms: &[AtomText],
) -> Result<(), CheckFault>
    ensures { Checks (atoms_fault item width height atoms.now) result }
{
    for atom in atoms {
        check_term(item, width, atom.x)?;
        check_term(item, height, atom.y)?;
    }
    Ok(())
}

/// The same for the atoms of tests.
pub fn check_tests(
    item: Item,
    width: u32,
    height: u32,
    tests: &[TestText],
) -> Result<(), CheckFault>
    ensures { Checks (tests_fault item width height tests.now) result }
{
    for test in tests {
        check_term(item, width, test.atom.x)?;
        check_term(item, height, test.atom.y)?;
    }
    Ok(())
}
