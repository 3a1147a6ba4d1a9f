// Whole texts: first all tokens, then the tree.

ghost use Rattle.std.specs.Prelude.{◌≡◌, ◌⊎◌, ◌≤◌, length, slice_get, IsTrue, IfOk, IfErr, Ok, Err};
ghost use Rattle.bddl_model.specs.declared.fault.ReadFault.{ReadFault};
ghost use Rattle.bddl_model.specs.declared.fault.ReadFault.TheVariants.{NoMemory as out_of_memory};
ghost use Rattle.bddl_model.specs.declared.texts.DomainText.{DomainText};
ghost use Rattle.bddl_model.specs.declared.texts.ProblemText.{ProblemText};
ghost use Rattle.bddl_model.specs.Tokens.{AreTokens};
ghost use Rattle.bddl_model.specs.Grammar.{domain, problem};
ghost use Rattle.bddl_model.specs.Canonical.{domain_can_be_spelled, problem_can_be_spelled};
ghost use Rattle.bddl_model.specs.Reading.{Reads, ReadFails, UnlessNoMemory};
ghost use Rattle.bddl_reader.specs.Faults.{lexer_fault, token_fault, stop_fault, left_at, IsLexerFault};

use crate::domain::domain;
use crate::problem::problem;
use crate::stop::Stop;
use bddl_lexer::{lex, place_of};
use bddl_model::{DomainText, LexFault, ProblemText, ReadFault, Token};
use std::alloc::Global;

fn lexer_fault(fault: LexFault) -> ReadFault
    ensures { result ≡ lexer_fault fault }
{
    match fault {
        LexFault::NoMemory => ReadFault::NoMemory,
        _ => ReadFault::Lex(fault),
    }
}

fn tokens_of(alloc: Global, bytes: &[u8]) -> Result<Vec<Token>, ReadFault>
    requires { length bytes.now ≤ 1048576 }
    ensures found { IfOk result (λ tokens. AreTokens bytes.now tokens.items) }
    ensures fault { IfErr result (λ f. (f ≡ out_of_memory) ⊎ IsLexerFault bytes.now f) }
{
    match lex(alloc, bytes) {
        Ok(tokens) => Ok(tokens),
        Err(fault) => Err(lexer_fault(fault)),
    }
}

/// The fault of a text whose tokens begin a tree up to the token of this number.
fn token_fault(bytes: &[u8], tokens: &[Token], number: usize) -> ReadFault
    requires short { length bytes.now ≤ 1048576 }
    requires placed { AreTokens bytes.now tokens.now }
    requires within { number ≤ length tokens.now }
    ensures { result ≡ token_fault bytes.now (slice_get tokens.now number) number }
{
    match tokens.get(number) {
        Some(token) => ReadFault::Unexpected {
            token: number as u32,
            place: place_of(bytes, token.start),
        },
        None => ReadFault::EndsEarly {
            place: place_of(bytes, bytes.len() as u32),
        },
    }
}

fn stop_fault(bytes: &[u8], tokens: &[Token], stop: Stop) -> ReadFault
    requires short { length bytes.now ≤ 1048576 }
    requires placed { AreTokens bytes.now tokens.now }
    requires within { left_at stop ≤ length tokens.now }
    ensures { result ≡ stop_fault bytes.now tokens.now stop }
{
    match stop {
        Stop::NoMemory => ReadFault::NoMemory,
        Stop::Stuck { left } => token_fault(bytes, tokens, tokens.len() - left),
    }
}

fn domain_of(alloc: Global, bytes: &[u8]) -> Result<DomainText, ReadFault>
    requires { length bytes.now ≤ 1048576 }
    ensures found { IfOk result (Reads domain bytes.now) }
    ensures fault { IfErr result (λ f. (f ≡ out_of_memory) ⊎ ReadFails domain bytes.now f) }
{
    let tokens = tokens_of(alloc, bytes)?;
    let tokens = tokens.as_slice();
    match domain(alloc, bytes, tokens) {
        Ok(tree) => Ok(tree),
        Err(stop) => Err(stop_fault(bytes, tokens, stop)),
    }
}

fn problem_of(alloc: Global, bytes: &[u8]) -> Result<ProblemText, ReadFault>
    requires { length bytes.now ≤ 1048576 }
    ensures found { IfOk result (Reads problem bytes.now) }
    ensures fault { IfErr result (λ f. (f ≡ out_of_memory) ⊎ ReadFails problem bytes.now f) }
{
    let tokens = tokens_of(alloc, bytes)?;
    let tokens = tokens.as_slice();
    match problem(alloc, bytes, tokens) {
        Ok(tree) => Ok(tree),
        Err(stop) => Err(stop_fault(bytes, tokens, stop)),
    }
}

/// The domain that a text spells.
pub fn read_domain(alloc: Global, bytes: &[u8]) -> Result<DomainText, ReadFault>
    requires { length bytes.now ≤ 1048576 }
    ensures found { IfOk result (λ tree. Reads domain bytes.now tree) }
    ensures spelled { IfOk result (λ tree. IsTrue (domain_can_be_spelled tree)) }

    // A text that spells a domain is read, if memory suffices.
    ensures only { (tree : DomainText) → Reads domain bytes.now tree → UnlessNoMemory result (Ok tree) }

    // A fault is the first of the text, and a text with a fault has this answer.
    ensures fault { IfErr result (λ f. (f ≡ out_of_memory) ⊎ ReadFails domain bytes.now f) }
    ensures exact { (f : ReadFault) → ReadFails domain bytes.now f → UnlessNoMemory result (Err f) }
{
    domain_of(alloc, bytes)
}

/// The problem that a text spells.
pub fn read_problem(alloc: Global, bytes: &[u8]) -> Result<ProblemText, ReadFault>
    requires { length bytes.now ≤ 1048576 }
    ensures found { IfOk result (λ tree. Reads problem bytes.now tree) }
    ensures spelled { IfOk result (λ tree. IsTrue (problem_can_be_spelled tree)) }

    // A text that spells a problem is read, if memory suffices.
    ensures only { (tree : ProblemText) → Reads problem bytes.now tree → UnlessNoMemory result (Ok tree) }

    // A fault is the first of the text, and a text with a fault has this answer.
    ensures fault { IfErr result (λ f. (f ≡ out_of_memory) ⊎ ReadFails problem bytes.now f) }
    ensures exact { (f : ReadFault) → ReadFails problem bytes.now f → UnlessNoMemory result (Err f) }
{
    problem_of(alloc, bytes)
}
