// Actions and domains.

ghost use Rattle.std.specs.Prelude.{[], codes};
ghost use Rattle.bddl_model.specs.declared.tokens.TokenKind.TheVariants.{Colon};
ghost use Rattle.bddl_model.specs.Tokens.{lexemes};
ghost use Rattle.bddl_model.specs.Meanings.{is};
ghost use Rattle.bddl_reader.specs.ListReaders.{lacks};
ghost use Rattle.bddl_reader.specs.Gives.{Gives};
ghost use Rattle.bddl_reader.specs.GrammarReaders.{parameters_at, action_at, domain_at};

use crate::list::{Item, enclosed, listed};
use crate::names::name;
use crate::single::{ended, is_next, token};
use crate::stop::Stop;
use bddl_model::{ActionText, DomainText, Token, TokenKind};
use std::alloc::Global;

fn parameters<'a>(bytes: &[u8], rest: &'a [Token]) -> Result<&'a [Token], Stop>
    ensures { Gives (λ after. (tt, lexemes bytes.now after.now)) result (parameters_at (lexemes bytes.now rest.now)) }
{
    let rest = token(bytes, rest, TokenKind::Colon, b":parameters")?;
    let rest = token(bytes, rest, TokenKind::Left, b"(")?;
    let rest = token(bytes, rest, TokenKind::VarX, b"?x")?;
    let rest = token(bytes, rest, TokenKind::Comma, b",")?;
    let rest = token(bytes, rest, TokenKind::VarY, b"?y")?;
    token(bytes, rest, TokenKind::Right, b")")
}

fn action<'a>(
    alloc: Global,
    bytes: &[u8],
    rest: &'a [Token],
) -> Result<(ActionText, &'a [Token]), Stop>
    ensures { Gives (λ x. (x.0, lexemes bytes.now x.1.now)) result (action_at (lexemes bytes.now rest.now)) }
{
    let rest = token(bytes, rest, TokenKind::Colon, b":action")?;
    let (name, rest) = name(alloc, bytes, rest)?;
    let rest = parameters(bytes, rest)?;
    let rest = token(bytes, rest, TokenKind::Colon, b":precondition")?;
    let (before, rest) = enclosed(alloc, bytes, rest)?;
    let rest = token(bytes, rest, TokenKind::Colon, b":effect")?;
    let (effects, rest) = enclosed(alloc, bytes, rest)?;
    let action = ActionText {
        name,
        before,
        effects,
    };
    Ok((action, rest))
}

impl Item for ActionText {
    ghost stops = { lacks (is Colon (codes ":action")) };

    ghost item_at = { action_at };

    fn is_next(bytes: &[u8], rest: &[Token]) -> bool {
        is_next(bytes, rest, TokenKind::Colon, b":action")
    }

    fn read<'a>(
        alloc: Global,
        bytes: &[u8],
        rest: &'a [Token],
    ) -> Result<(ActionText, &'a [Token]), Stop> {
        action(alloc, bytes, rest)
    }
}

pub fn domain(alloc: Global, bytes: &[u8], tokens: &[Token]) -> Result<DomainText, Stop>
    ensures { Gives (λ tree. (tree, [])) result (domain_at (lexemes bytes.now tokens.now)) }
{
    let rest = token(bytes, tokens, TokenKind::Hash, b"#blackactions")?;
    let (black, rest) = listed(alloc, bytes, rest)?;
    let rest = token(bytes, rest, TokenKind::Hash, b"#whiteactions")?;
    let (white, rest) = listed(alloc, bytes, rest)?;
    ended(rest)?;
    Ok(DomainText { black, white })
}
