// Lists between parentheses.

ghost use Rattle.std.specs.Prelude.{◌≡◌, ◌++◌, ℕ, List, OnOk, map, flat_map, codes};
ghost use Rattle.bddl_model.specs.Canonical.{listed};

use super::words::push;
use bddl_model::NoMemory;

/// What has a text of its own.
pub trait Printed {
    ghost text_of: { Self → List ℕ };

    fn push_to(&self, text: &mut Vec<u8>) -> Result<(), NoMemory>
        ensures { OnOk result (text.new.items ≡ text.old.items ++ text_of self.now) };
}

// Each behind a space.
fn push_more<P: Printed>(text: &mut Vec<u8>, items: &[P]) -> Result<(), NoMemory>
    ensures { OnOk result (text.new.items ≡ text.old.items ++ flat_map (λ item. codes " " ++ P.text_of item) items.now) }
{
    for item in items {
        push(text, b" ")?;
        item.push_to(text)?;
    }
    Ok(())
}

/// Items between parentheses.
pub fn push_list<P: Printed>(text: &mut Vec<u8>, items: &[P]) -> Result<(), NoMemory>
    ensures { OnOk result (text.new.items ≡ text.old.items ++ listed (map P.text_of items.now)) }
{
    match items {
        [] => push(text, b"()"),
        [first, more @ ..] => {
            push(text, b"(")?;
            first.push_to(text)?;
            push_more(text, more)?;
            push(text, b")")
        }
    }
}
