// Coordinates of a cell, from the anchor or fixed.

ghost use Rattle.std.specs.Prelude.{◌≡◌, ◌++◌, OnOk};
ghost use Rattle.bddl_model.specs.Canonical.{shift_text, term_text, x_text, y_text};

use super::words::{push, push_number};
use bddl_model::{NoMemory, TermText};

fn push_shift(text: &mut Vec<u8>, shift: i32) -> Result<(), NoMemory>
    ensures { OnOk result (text.new.items ≡ text.old.items ++ shift_text shift) }
{
    match shift {
        0 => Ok(()),
        1.. => {
            push(text, b"+")?;
            push_number(text, shift.unsigned_abs())
        }
        _ => {
            push(text, b"-")?;
            push_number(text, shift.unsigned_abs())
        }
    }
}

fn push_term(
    text: &mut Vec<u8>,
    variable: &[u8],
    least: &[u8],
    greatest: &[u8],
    term: TermText,
) -> Result<(), NoMemory>
    ensures { OnOk result (text.new.items ≡ text.old.items ++ term_text variable.now least.now greatest.now term) }
{
    match term {
        TermText::Shift(shift) => {
            push(text, variable)?;
            push_shift(text, shift)
        }
        TermText::Number(number) => push_number(text, number),
        TermText::Least => push(text, least),
        TermText::Greatest => push(text, greatest),
    }
}

pub fn push_x(text: &mut Vec<u8>, term: TermText) -> Result<(), NoMemory>
    ensures { OnOk result (text.new.items ≡ text.old.items ++ x_text term) }
{
    push_term(text, b"?x", b"xmin", b"xmax", term)
}

pub fn push_y(text: &mut Vec<u8>, term: TermText) -> Result<(), NoMemory>
    ensures { OnOk result (text.new.items ≡ text.old.items ++ y_text term) }
{
    push_term(text, b"?y", b"ymin", b"ymax", term)
}
