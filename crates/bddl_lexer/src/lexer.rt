//! The tokens of a text.

ghost use Rattle.std.specs.Prelude.{◌≡◌, ◌⊎◌, ◌≤◌, ℕ, List, length, IfOk, IfErr, Err};
ghost use Rattle.bddl_model.specs.declared.tokens.LexFault.{LexFault};
ghost use Rattle.bddl_model.specs.declared.tokens.LexFault.TheVariants.{NoMemory as out_of_memory};
ghost use Rattle.bddl_model.specs.declared.tokens.Token.{Token};
ghost use Rattle.bddl_model.specs.Tokens.{Lexeme, Tokens, AreTokens, Fails, LexFails, lexemes};

use crate::bytes::gap;
use crate::front::token;
use bddl_model::{LexFault, Token, TokenFault};
use std::alloc::Global;

fn fault_at(fault: TokenFault, at: u32) -> LexFault
    ensures { (bytes : List ℕ) → Fails bytes fault at → LexFails bytes result }
{
    match fault {
        TokenFault::BadByte => LexFault::BadByte { at },
        TokenFault::NameTooLong => LexFault::NameTooLong { at },
        TokenFault::NumberTooLong => LexFault::NumberTooLong { at },
    }
}

fn tokens_of(alloc: Global, bytes: &[u8]) -> Result<Vec<Token>, LexFault>
    requires { length bytes.now ≤ 1048576 }
    ensures found { IfOk result (λ ts. AreTokens bytes.now ts.items) }
    ensures fault { IfErr result (λ f. (f ≡ out_of_memory) ⊎ LexFails bytes.now f) }
{
    let mut tokens = Vec::new(alloc);
    let mut at = 0;
    loop {
        let start = at + gap(&bytes[at..]);
        if start == bytes.len() {
            return Ok(tokens);
        }
        match token(&bytes[start..]) {
            Ok((kind, len)) => {
                at = start + len;
                tokens.push(Token {
                    kind,
                    start: start as u32,
                    end: at as u32,
                })?;
            }
            Err(fault) => return Err(fault_at(fault, start as u32)),
        }
    }
}

/// The tokens of a text, with their places.
pub fn lex(alloc: Global, bytes: &[u8]) -> Result<Vec<Token>, LexFault>
    requires { length bytes.now ≤ 1048576 }
    ensures found { IfOk result (λ ts. AreTokens bytes.now ts.items) }

    // A text has no other tokens, and where it has tokens, only memory can keep them from being answered.
    ensures only { (ws : List Lexeme) → Tokens bytes.now ws → IfOk result (λ ts. lexemes bytes.now ts.items ≡ ws) }
    ensures never { (ws : List Lexeme) → Tokens bytes.now ws → IfErr result (λ f. f ≡ out_of_memory) }

    // A fault is the text's, and a text with a fault is answered by it.
    ensures fault { IfErr result (λ f. (f ≡ out_of_memory) ⊎ LexFails bytes.now f) }
    ensures exact { (f : LexFault) → LexFails bytes.now f → (result ≡ Err f) ⊎ (result ≡ Err out_of_memory) }
{
    tokens_of(alloc, bytes)
}

/// A law: a text is spelled by one list of tokens at most.
pub fn tokens_are_one()
    ensures { (bytes : List ℕ) (vs ws : List Lexeme) → Tokens bytes vs → Tokens bytes ws → vs ≡ ws }
{}

/// A law: a text has one list of placed tokens at most.
pub fn placing_is_one()
    ensures { (bytes : List ℕ) (ts us : List Token) → AreTokens bytes ts → AreTokens bytes us → ts ≡ us }
{}
