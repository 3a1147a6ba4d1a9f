// Lists of items, as long as the next token begins one.

ghost use Rattle.std.specs.Prelude.{◌≡◌, ◌<◌, Bool, List, IfOk, length, not};
ghost use Rattle.bddl_model.specs.Tokens.{Lexeme, lexemes};
ghost use Rattle.bddl_reader.specs.ListReaders.{Reader, all_at};
ghost use Rattle.bddl_reader.specs.Gives.{Gives};
ghost use Rattle.bddl_reader.specs.GrammarReaders.{enclosed_at};

use crate::single::token;
use crate::stop::Stop;
use bddl_model::{Items, Token, TokenKind};
use std::alloc::Global;

/// What a list is made of.
pub trait Item: Drop {
    /// Whether no item is next.
    ghost stops: { List Lexeme → Bool };

    /// How an item is read.
    ghost item_at: { Reader Lexeme Self };

    fn is_next(bytes: &[u8], rest: &[Token]) -> bool
        ensures { stops (lexemes bytes.now rest.now) ≡ not result };

    fn read<'a>(alloc: Global, bytes: &[u8], rest: &'a [Token]) -> Result<(Self, &'a [Token]), Stop>
        ensures gives { Gives (λ x. (x.0, lexemes bytes.now x.1.now)) result (item_at (lexemes bytes.now rest.now)) }
        ensures fewer { IfOk result (λ x. length x.1.now < length rest.now) };
}

/// None or more items.
pub fn listed<'a, I: Item>(
    alloc: Global,
    bytes: &[u8],
    tokens: &'a [Token],
) -> Result<(Items<I>, &'a [Token]), Stop>
    ensures { Gives (λ x. (x.0, lexemes bytes.now x.1.now)) result (all_at I.stops I.item_at (lexemes bytes.now tokens.now)) }
{
    let mut found = Items::new(alloc);
    let mut rest = tokens;
    'items: while I::is_next(bytes, rest) {
        let (item, after) = I::read(alloc, bytes, rest)?;
        found.push(item)?;
        rest = after;
    }
    Ok((found, rest))
}

/// None or more items between parentheses.
pub fn enclosed<'a, I: Item>(
    alloc: Global,
    bytes: &[u8],
    rest: &'a [Token],
) -> Result<(Items<I>, &'a [Token]), Stop>
    ensures { Gives (λ x. (x.0, lexemes bytes.now x.1.now)) result (enclosed_at (all_at I.stops I.item_at) (lexemes bytes.now rest.now)) }
{
    let rest = token(bytes, rest, TokenKind::Left, b"(")?;
    let (found, rest) = listed(alloc, bytes, rest)?;
    let rest = token(bytes, rest, TokenKind::Right, b")")?;
    Ok((found, rest))
}
