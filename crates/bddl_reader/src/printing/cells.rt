// The start board's cells.

ghost use Rattle.bddl_model.specs.Canonical.{cell_text};

use super::list::Printed;
use super::words::{push, push_mark, push_number};
use bddl_model::{InitAtom, NoMemory};

impl Printed for InitAtom {
    ghost text_of = { cell_text };

    fn push_to(&self, text: &mut Vec<u8>) -> Result<(), NoMemory> {
        push_mark(text, self.mark)?;
        push(text, b"(")?;
        push_number(text, self.x)?;
        push(text, b",")?;
        push_number(text, self.y)?;
        push(text, b")")
    }
}
