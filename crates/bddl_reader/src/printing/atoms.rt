// Atoms, and tests of cells.

ghost use Rattle.bddl_model.specs.Canonical.{atom_text, test_text};

use super::list::Printed;
use super::terms::{push_x, push_y};
use super::words::{push, push_mark};
use bddl_model::{AtomText, NoMemory, TestText};

impl Printed for AtomText {
    ghost text_of = { atom_text };

    fn push_to(&self, text: &mut Vec<u8>) -> Result<(), NoMemory> {
        push_mark(text, self.mark)?;
        push(text, b"(")?;
        push_x(text, self.x)?;
        push(text, b",")?;
        push_y(text, self.y)?;
        push(text, b")")
    }
}

impl Printed for TestText {
    ghost text_of = { test_text };

    fn push_to(&self, text: &mut Vec<u8>) -> Result<(), NoMemory> {
        if self.negated {
            push(text, b"NOT(")?;
            self.atom.push_to(text)?;
            push(text, b")")
        } else {
            self.atom.push_to(text)
        }
    }
}
