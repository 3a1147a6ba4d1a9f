// The game that two texts state, or what is wrong with them.
ghost use Rattle.std.specs.Prelude.{◌≡◌, ◌≤◌, length, Ok, IfOk, IfErr, IsTrue};
ghost use Rattle.bddl_model.specs.declared.texts.DomainText.{DomainText as DomainTree};
ghost use Rattle.bddl_model.specs.declared.texts.ProblemText.{ProblemText as ProblemTree};
ghost use Rattle.bddl_model.specs.Canonical.{domain_can_be_spelled, problem_can_be_spelled};
ghost use Rattle.bddl_model.specs.Grammar.{domain, problem};
ghost use Rattle.bddl_model.specs.Outcome.{DomainThen, ProblemThen, GameThen, States};
ghost use Rattle.bddl_model.specs.Reading.{Reads};
ghost use Rattle.request_parts.specs.Ends.{NamesAByte, Nothing, StopsAt, content_told, text_stop};

use crate::refusal::{Content, GameText, Stop};
use bddl_lexer::place_of;
use bddl_model::{DomainText, LexFault, ProblemText, ReadFault};
use bddl_reader::{read_domain, read_problem};
use offset_check::{Setup, check};
use std::alloc::Global;

/// The setup that two texts state.
pub fn read_game(alloc: Global, domain: &[u8], problem: &[u8]) -> Result<Setup, Stop<Content>>
    requires domain_short { length domain.now ≤ 1048576 }
    requires problem_short { length problem.now ≤ 1048576 }
    ensures found { IfOk result (λ s. (dom : DomainTree) × (prob : ProblemTree) × States domain.now problem.now dom prob (Ok s)) }
    ensures stop { IfErr result (StopsAt content_told (GameThen domain.now problem.now Nothing)) }
{
    let domain = domain_tree(alloc, domain)?;
    let problem = problem_tree(alloc, problem)?;
    Ok(check(alloc, &domain, &problem)?)
}

/// The tree of a domain.
pub fn domain_tree(alloc: Global, bytes: &[u8]) -> Result<DomainText, Stop<Content>>
    requires { length bytes.now ≤ 1048576 }
    ensures found { IfOk result (λ tree. Reads domain bytes.now tree) }
    ensures spelled { IfOk result (λ tree. IsTrue (domain_can_be_spelled tree)) }
    ensures stop { IfErr result (StopsAt content_told (DomainThen bytes.now Nothing)) }
{
    match read_domain(alloc, bytes) {
        Ok(tree) => Ok(tree),
        Err(fault) => Err(text_stop(GameText::Domain, bytes, fault)),
    }
}

/// The tree of a problem.
pub fn problem_tree(alloc: Global, bytes: &[u8]) -> Result<ProblemText, Stop<Content>>
    requires { length bytes.now ≤ 1048576 }
    ensures found { IfOk result (λ tree. Reads problem bytes.now tree) }
    ensures spelled { IfOk result (λ tree. IsTrue (problem_can_be_spelled tree)) }
    ensures stop { IfErr result (StopsAt content_told (ProblemThen bytes.now Nothing)) }
{
    match read_problem(alloc, bytes) {
        Ok(tree) => Ok(tree),
        Err(fault) => Err(text_stop(GameText::Problem, bytes, fault)),
    }
}

fn text_stop(text: GameText, bytes: &[u8], fault: ReadFault) -> Stop<Content>
    requires short { length bytes.now ≤ 1048576 }
    requires names { NamesAByte bytes.now fault }
    ensures { result ≡ text_stop text bytes.now fault }
{
    let place = match fault {
        ReadFault::Lex(LexFault::BadByte { at })
        | ReadFault::Lex(LexFault::NameTooLong { at })
        | ReadFault::Lex(LexFault::NumberTooLong { at }) => place_of(bytes, at),
        ReadFault::Unexpected { place, .. } | ReadFault::EndsEarly { place } => place,
        ReadFault::Lex(LexFault::NoMemory) | ReadFault::NoMemory => return Stop::NoMemory,
    };
    Stop::Refused(Content::Text { text, place, fault })
}
