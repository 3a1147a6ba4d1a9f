// Problems.

ghost use Rattle.std.specs.Prelude.{[]};
ghost use Rattle.bddl_model.specs.Tokens.{lexemes};
ghost use Rattle.bddl_reader.specs.Gives.{Gives};
ghost use Rattle.bddl_reader.specs.GrammarReaders.{problem_at};

use crate::list::{enclosed, listed};
use crate::numbers::number;
use crate::sides::first_side;
use crate::single::{ended, token};
use crate::stop::Stop;
use bddl_model::{ProblemText, Token, TokenKind};
use std::alloc::Global;

pub fn problem(alloc: Global, bytes: &[u8], tokens: &[Token]) -> Result<ProblemText, Stop>
    ensures { Gives (λ tree. (tree, [])) result (problem_at (lexemes bytes.now tokens.now)) }
{
    let rest = token(bytes, tokens, TokenKind::Hash, b"#boardsize")?;
    let (width, rest) = number(bytes, rest)?;
    let (height, rest) = number(bytes, rest)?;
    let rest = token(bytes, rest, TokenKind::Hash, b"#init")?;
    let (init, rest) = enclosed(alloc, bytes, rest)?;
    let rest = token(bytes, rest, TokenKind::Hash, b"#depth")?;
    let (depth, rest) = number(bytes, rest)?;
    let (first, rest) = first_side(bytes, rest)?;
    let rest = token(bytes, rest, TokenKind::Hash, b"#blackgoals")?;
    let (black, rest) = listed(alloc, bytes, rest)?;
    let rest = token(bytes, rest, TokenKind::Hash, b"#whitegoals")?;
    let (white, rest) = listed(alloc, bytes, rest)?;
    ended(rest)?;
    Ok(ProblemText {
        width,
        height,
        init,
        depth,
        first,
        black,
        white,
    })
}
