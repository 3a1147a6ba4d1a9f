// Words and numbers.

ghost use Rattle.std.specs.Prelude.{◌≡◌, ◌++◌, OnOk, decimal};
ghost use Rattle.bddl_model.specs.Canonical.{mark_text};

use bddl_model::{Mark, NoMemory};
use itoa::Buffer;

/// Adds bytes at the end.
pub fn push(text: &mut Vec<u8>, bytes: &[u8]) -> Result<(), NoMemory>
    ensures { OnOk result (text.new.items ≡ text.old.items ++ bytes.now) }
{
    text.extend_from_slice(bytes)?;
    Ok(())
}

pub fn push_number(text: &mut Vec<u8>, number: u32) -> Result<(), NoMemory>
    ensures { OnOk result (text.new.items ≡ text.old.items ++ decimal number) }
{
    let mut digits = Buffer::new();
    push(text, digits.format(number).as_bytes())
}

pub fn push_mark(text: &mut Vec<u8>, mark: Mark) -> Result<(), NoMemory>
    ensures { OnOk result (text.new.items ≡ text.old.items ++ mark_text mark) }
{
    match mark {
        Mark::Free => push(text, b"open"),
        Mark::Black => push(text, b"black"),
        Mark::White => push(text, b"white"),
    }
}
