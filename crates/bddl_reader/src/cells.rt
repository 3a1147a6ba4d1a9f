// The start board's cells.

ghost use Rattle.bddl_model.specs.Tokens.{lexemes};
ghost use Rattle.bddl_model.specs.Meanings.{a_mark};
ghost use Rattle.bddl_reader.specs.ListReaders.{lacks};
ghost use Rattle.bddl_reader.specs.Gives.{Gives};
ghost use Rattle.bddl_reader.specs.GrammarReaders.{cell_at};

use crate::list::Item;
use crate::numbers::number;
use crate::single::{mark, mark_is_next, token};
use crate::stop::Stop;
use bddl_model::{InitAtom, Token, TokenKind};
use std::alloc::Global;

fn cell<'a>(bytes: &[u8], rest: &'a [Token]) -> Result<(InitAtom, &'a [Token]), Stop>
    ensures { Gives (λ x. (x.0, lexemes bytes.now x.1.now)) result (cell_at (lexemes bytes.now rest.now)) }
{
    let (mark, rest) = mark(bytes, rest)?;
    let rest = token(bytes, rest, TokenKind::Left, b"(")?;
    let (x, rest) = number(bytes, rest)?;
    let rest = token(bytes, rest, TokenKind::Comma, b",")?;
    let (y, rest) = number(bytes, rest)?;
    let rest = token(bytes, rest, TokenKind::Right, b")")?;
    Ok((InitAtom { mark, x, y }, rest))
}

impl Item for InitAtom {
    ghost stops = { lacks a_mark };

    ghost item_at = { cell_at };

    fn is_next(bytes: &[u8], rest: &[Token]) -> bool {
        mark_is_next(bytes, rest)
    }

    fn read<'a>(
        _alloc: Global,
        bytes: &[u8],
        rest: &'a [Token],
    ) -> Result<(InitAtom, &'a [Token]), Stop> {
        cell(bytes, rest)
    }
}
