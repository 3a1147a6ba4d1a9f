// Names.

ghost use Rattle.std.specs.Prelude.{◌≡◌, IfOk};
ghost use Rattle.std.specs.List.{list_all};
ghost use Rattle.bddl_model.specs.Bytes.{is_name_byte};
ghost use Rattle.bddl_model.specs.Tokens.{lexemes, begins_with_letter};
ghost use Rattle.bddl_model.specs.Meanings.{is_name, a_name};
ghost use Rattle.bddl_reader.specs.ListReaders.{one_at};
ghost use Rattle.bddl_reader.specs.Gives.{Gives};

use crate::single::text_of;
use crate::stop::Stop;
use bddl_lexer::{is_letter, is_name_byte};
use bddl_model::{NameText, NoMemory, Token, TokenKind};
use std::alloc::Global;

fn begins_with_letter(text: &[u8]) -> bool
    ensures { result ≡ begins_with_letter text.now }
{
    match text {
        [] => false,
        [first, ..] => is_letter(*first),
    }
}

fn has_name_bytes_only(text: &[u8]) -> bool
    ensures { result ≡ list_all is_name_byte text.now }
{
    text.iter().all(|byte| is_name_byte(*byte))
}

fn is_name(text: &[u8]) -> bool
    ensures { result ≡ is_name text.now }
{
    begins_with_letter(text) && has_name_bytes_only(text) && text.len() <= 32
}

fn copied(alloc: Global, text: &[u8]) -> Result<NameText, NoMemory>
    ensures { IfOk result (λ name. name ≡ text.now) }
{
    let mut name = NameText::new(alloc);
    for byte in text {
        name.push(*byte)?;
    }
    Ok(name)
}

pub fn name<'a>(
    alloc: Global,
    bytes: &[u8],
    rest: &'a [Token],
) -> Result<(NameText, &'a [Token]), Stop>
    ensures { Gives (λ x. (x.0, lexemes bytes.now x.1.now)) result (one_at a_name (lexemes bytes.now rest.now)) }
{
    match rest {
        [] => Err(Stop::Stuck { left: 0 }),
        [first, after @ ..] => {
            let text = text_of(bytes, first);
            if first.kind == TokenKind::Name && is_name(text) {
                let name = copied(alloc, text)?;
                Ok((name, after))
            } else {
                Err(Stop::Stuck { left: rest.len() })
            }
        }
    }
}
