// Atoms, tests of cells, and goal lines.

ghost use Rattle.std.specs.Prelude.{◌≡◌, codes};
ghost use Rattle.bddl_model.specs.declared.tokens.TokenKind.TheVariants.{Left};
ghost use Rattle.bddl_model.specs.Tokens.{spelling, lexemes};
ghost use Rattle.bddl_model.specs.Meanings.{is, a_mark, plain, negation, test_start, test_start_in};
ghost use Rattle.bddl_reader.specs.ListReaders.{lacks};
ghost use Rattle.bddl_reader.specs.Gives.{Gives};
ghost use Rattle.bddl_reader.specs.GrammarReaders.{behind_mark_at, atom_at, behind_test_start_at, test_at, tests_at};
ghost use Rattle.bddl_reader.specs.Starts.{test_begun};

use crate::list::{Item, enclosed};
use crate::single::{is_next, is_token, mark, mark_is_next, mark_of, token};
use crate::stop::Stop;
use crate::terms::{Coordinate, term};
use bddl_model::{AtomText, Mark, TestList, TestText, Token, TokenKind};
use std::alloc::Global;

// The atom of this mark, whose cell is next.
fn behind_mark<'a>(
    bytes: &[u8],
    rest: &'a [Token],
    mark: Mark,
) -> Result<(AtomText, &'a [Token]), Stop>
    ensures { Gives (λ x. (x.0, lexemes bytes.now x.1.now)) result (behind_mark_at mark (lexemes bytes.now rest.now)) }
{
    let rest = token(bytes, rest, TokenKind::Left, b"(")?;
    let (x, rest) = term(bytes, rest, Coordinate::X)?;
    let rest = token(bytes, rest, TokenKind::Comma, b",")?;
    let (y, rest) = term(bytes, rest, Coordinate::Y)?;
    let rest = token(bytes, rest, TokenKind::Right, b")")?;
    Ok((AtomText { mark, x, y }, rest))
}

fn atom<'a>(bytes: &[u8], rest: &'a [Token]) -> Result<(AtomText, &'a [Token]), Stop>
    ensures { Gives (λ x. (x.0, lexemes bytes.now x.1.now)) result (atom_at (lexemes bytes.now rest.now)) }
{
    let (mark, rest) = mark(bytes, rest)?;
    behind_mark(bytes, rest, mark)
}

impl Item for AtomText {
    ghost stops = { lacks a_mark };

    ghost item_at = { atom_at };

    fn is_next(bytes: &[u8], rest: &[Token]) -> bool {
        mark_is_next(bytes, rest)
    }

    fn read<'a>(
        _alloc: Global,
        bytes: &[u8],
        rest: &'a [Token],
    ) -> Result<(AtomText, &'a [Token]), Stop> {
        atom(bytes, rest)
    }
}

/// How a test begins: with the mark of its atom, or it is negated.
#[derive(Clone, Copy, Debug, PartialEq, Eq)]
pub enum TestStart {
    Plain(Mark),
    Negation,
}

fn test_start(bytes: &[u8], token: &Token) -> Option<TestStart>
    ensures { test_begun result ≡ test_start_in token.now.kind (spelling bytes.now token.now) }
{
    if is_token(bytes, token, TokenKind::Name, b"NOT") {
        Some(TestStart::Negation)
    } else {
        mark_of(bytes, token).map(TestStart::Plain)
    }
}

fn plain_test<'a>(
    bytes: &[u8],
    rest: &'a [Token],
    mark: Mark,
) -> Result<(TestText, &'a [Token]), Stop>
    ensures { Gives (λ x. (x.0, lexemes bytes.now x.1.now)) result (behind_test_start_at (plain mark) (lexemes bytes.now rest.now)) }
{
    let (atom, rest) = behind_mark(bytes, rest, mark)?;
    let test = TestText {
        atom,
        negated: false,
    };
    Ok((test, rest))
}

fn negated_test<'a>(bytes: &[u8], rest: &'a [Token]) -> Result<(TestText, &'a [Token]), Stop>
    ensures { Gives (λ x. (x.0, lexemes bytes.now x.1.now)) result (behind_test_start_at negation (lexemes bytes.now rest.now)) }
{
    let rest = token(bytes, rest, TokenKind::Left, b"(")?;
    let (atom, rest) = atom(bytes, rest)?;
    let rest = token(bytes, rest, TokenKind::Right, b")")?;
    let test = TestText {
        atom,
        negated: true,
    };
    Ok((test, rest))
}

fn test<'a>(bytes: &[u8], rest: &'a [Token]) -> Result<(TestText, &'a [Token]), Stop>
    ensures { Gives (λ x. (x.0, lexemes bytes.now x.1.now)) result (test_at (lexemes bytes.now rest.now)) }
{
    match rest {
        [] => Err(Stop::Stuck { left: 0 }),
        [first, after @ ..] => match test_start(bytes, first) {
            Some(TestStart::Plain(mark)) => plain_test(bytes, after, mark),
            Some(TestStart::Negation) => negated_test(bytes, after),
            None => Err(Stop::Stuck { left: rest.len() }),
        },
    }
}

impl Item for TestText {
    ghost stops = { lacks test_start };

    ghost item_at = { test_at };

    fn is_next(bytes: &[u8], rest: &[Token]) -> bool {
        match rest {
            [] => false,
            [first, ..] => test_start(bytes, first).is_some(),
        }
    }

    fn read<'a>(
        _alloc: Global,
        bytes: &[u8],
        rest: &'a [Token],
    ) -> Result<(TestText, &'a [Token]), Stop> {
        test(bytes, rest)
    }
}

// A goal line.
impl Item for TestList {
    ghost stops = { lacks (is Left (codes "(")) };

    ghost item_at = { tests_at };

    fn is_next(bytes: &[u8], rest: &[Token]) -> bool {
        is_next(bytes, rest, TokenKind::Left, b"(")
    }

    fn read<'a>(
        alloc: Global,
        bytes: &[u8],
        rest: &'a [Token],
    ) -> Result<(TestList, &'a [Token]), Stop> {
        enclosed(alloc, bytes, rest)
    }
}
