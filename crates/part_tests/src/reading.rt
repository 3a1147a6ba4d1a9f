// Trees of texts, and the first fault of a text.
ghost use Rattle.std.specs.Prelude.{◌≤◌, length};

use bddl_lexer::{lex, place_of};
use bddl_model::{
    AtomText, InitAtom, LexFault, Mark, Place, ReadFault, Side, TermText, TestList, TestText,
    Token, TokenKind,
};
use bddl_reader::{read_domain, read_problem};
use std::alloc::Global;
use std::process::Abort;
use std::test::Fail;

fn atom(mark: Mark, x: TermText, y: TermText) -> AtomText {
    AtomText { mark, x, y }
}

fn is(mark: Mark, x: TermText, y: TermText) -> TestText {
    TestText {
        atom: atom(mark, x, y),
        negated: false,
    }
}

fn is_not(mark: Mark, x: TermText, y: TermText) -> TestText {
    TestText {
        atom: atom(mark, x, y),
        negated: true,
    }
}

fn at(line: u32, column: u32) -> Place {
    Place { line, column }
}

fn unexpected_at(token: u32, place: Place) -> ReadFault {
    ReadFault::Unexpected { token, place }
}

fn unexpected(token: u32, line: u32, column: u32) -> ReadFault {
    unexpected_at(token, at(line, column))
}

fn ends_early(line: u32, column: u32) -> ReadFault {
    ReadFault::EndsEarly {
        place: at(line, column),
    }
}

fn assert_lines(rt: &impl Abort, lines: &[TestList], wanted: &[&[TestText]]) {
    assert_eq!(rt; lines.len(), wanted.len());
    for (line, tests) in lines.iter().zip(wanted) {
        assert_eq!(rt; line.as_slice(), *tests);
    }
}

#[test]
fn reads_a_problem_with_everything(rt: HostRuntime) -> Result<(), Fail> {
    let text = b"; a small board
#boardsize 12 007
#init (black(1,1) white(2,01)
  open(12,7)) ; the corner
#depth 31
#first white
#blackgoals
(black(?x,?y)NOT ( black ( ?x , 1 ) )black(?x+1,?y-2) open(3,ymin))
()
#whitegoals
(white(xmin,ymax) white(xmax,004) black(?x-0,?y+999999999))
";
    let problem = read_problem(rt.alloc(), text)?;
    assert_eq!(rt; (problem.width, problem.height, problem.depth), (12, 7, 31));
    assert_eq!(rt; problem.first, Side::White);
    let cells = [
        (Mark::Black, 1, 1),
        (Mark::White, 2, 1),
        (Mark::Free, 12, 7),
    ]
    .map(|(mark, x, y)| InitAtom { mark, x, y });
    assert_eq!(rt; problem.init.as_slice(), cells.as_slice());
    let first = [
        is(Mark::Black, TermText::Shift(0), TermText::Shift(0)),
        is_not(Mark::Black, TermText::Shift(0), TermText::Number(1)),
        is(Mark::Black, TermText::Shift(1), TermText::Shift(-2)),
        is(Mark::Free, TermText::Number(3), TermText::Least),
    ];
    assert_lines(&rt, problem.black.as_slice(), &[first.as_slice(), &[]]);
    let only = [
        is(Mark::White, TermText::Least, TermText::Greatest),
        is(Mark::White, TermText::Greatest, TermText::Number(4)),
        is(
            Mark::Black,
            TermText::Shift(0),
            TermText::Shift(999_999_999),
        ),
    ];
    assert_lines(&rt, problem.white.as_slice(), &[only.as_slice()]);
    Ok(())
}

#[derive(Clone, Copy)]
enum Grammar {
    Domain,
    Problem,
}

// What is wrong with a text.
fn fault_of(alloc: Global, grammar: Grammar, text: &[u8]) -> Option<ReadFault>
    requires { length text.now ≤ 200 }
{
    match grammar {
        Grammar::Domain => read_domain(alloc, text).err(),
        Grammar::Problem => read_problem(alloc, text).err(),
    }
}

fn assert_faults(rt: &impl Abort, alloc: Global, grammar: Grammar, cases: &[(&[u8], ReadFault)]) {
    for (text, fault) in cases {
        assert!(rt; text.len() <= 200);
        assert_eq!(rt; fault_of(alloc, grammar, text), Some(*fault));
    }
}

#[test]
fn names_the_first_fault_of_a_domain(rt: HostRuntime) {
    let cases: [(&[u8], ReadFault); 10] = [
        (b"", ends_early(1, 1)),
        (
            b"#blackactions :action a :parameters (?x, ?y) :precondition () :effect (",
            ends_early(1, 72),
        ),
        (
            b"#blackactions\n#whiteactions\r\n:action\r\n",
            ends_early(4, 1),
        ),
        (b"#blackactions ; none", ends_early(1, 21)),
        (
            b"#blackactions\n:action a\n:parameters (?y",
            unexpected(5, 3, 14),
        ),
        (
            b"#blackactions ; one\n#whiteactions )",
            unexpected(2, 2, 15),
        ),
        (b"#blackactions\r\r)", unexpected(1, 1, 16)),
        (
            b"#blackactions\n:action a :parameters (?x,?y)\n:precondition (NOT(NOT",
            unexpected(13, 3, 20),
        ),
        (
            b"#blackactions\n:action a :parameters (?x,?y)\n:precondition () :effect (NOT",
            unexpected(14, 3, 27),
        ),
        (b"#boardsize 3 3", unexpected(0, 1, 1)),
    ];
    assert_faults(&rt, rt.alloc(), Grammar::Domain, &cases);
}

#[test]
fn faults_of_tokens_come_first(rt: HostRuntime) {
    let cases: [(&[u8], ReadFault); 3] = [
        (
            b"#blackactions @",
            ReadFault::Lex(LexFault::BadByte { at: 14 }),
        ),
        (
            b"#whiteactions ; @\r\n@",
            ReadFault::Lex(LexFault::BadByte { at: 19 }),
        ),
        (
            b";\n:abcdefghijklmnopqrstuvwxyzABCDEFG",
            ReadFault::Lex(LexFault::NameTooLong { at: 2 }),
        ),
    ];
    assert_faults(&rt, rt.alloc(), Grammar::Domain, &cases);
}

#[test]
fn names_the_first_fault_of_a_problem(rt: HostRuntime) {
    let cases: [(&[u8], ReadFault); 13] = [
        (b"", ends_early(1, 1)),
        (b"#boardsize 3 3\n#init (", ends_early(2, 8)),
        (b"#boardsize 3 3 ; wide\r\n", ends_early(2, 1)),
        (b"#boardsize 3 3\n#init (black(1,?x", unexpected(9, 2, 16)),
        (
            b"#boardsize 3 3 ; wide\n#init () #depth ()",
            unexpected(7, 2, 17),
        ),
        (b"#boardsize\r3\r3\r+", unexpected(3, 1, 16)),
        (b"#boardsize 3 3\n#init (NOT", unexpected(5, 2, 8)),
        (
            b"#boardsize 3 3 #init ()\n#depth 0 #first #blackgoals",
            unexpected(9, 2, 17),
        ),
        (
            b"#boardsize 3 3 #init ()\n#depth 0 #first open",
            unexpected(9, 2, 17),
        ),
        (
            b"#boardsize 3 3 #init ()\n#depth 0\n#blackgoals (not(black(1,1)))",
            unexpected(10, 3, 14),
        ),
        (b"#blackactions", unexpected(0, 1, 1)),
        (
            b"#boardsize 3 0123456789",
            ReadFault::Lex(LexFault::NumberTooLong { at: 13 }),
        ),
        (
            b"#boardsize\n;3\n?z",
            ReadFault::Lex(LexFault::BadByte { at: 14 }),
        ),
    ];
    assert_faults(&rt, rt.alloc(), Grammar::Problem, &cases);
}

// The fault of a front of a text that is whole. A token that is cut is a lone mark, a number, the name
// of an action, or a word that the grammar doesn't have.
fn fault_of_front(rt: &impl Abort, text: &[u8], tokens: &[Token], len: u32) -> ReadFault {
    assert!(rt; len <= 200 && len as usize <= text.len());
    let early = ReadFault::EndsEarly {
        place: place_of(text, len),
    };
    let cut = |token: &Token| token.start < len && len < token.end;
    let Some(number) = tokens.iter().position(cut) else {
        return early;
    };
    assert!(rt; number <= 200);
    let token = tokens[number];
    match token.kind {
        TokenKind::Number => early,
        TokenKind::Name if text[token.start as usize] == b'a' => early,
        TokenKind::Name => unexpected_at(number as u32, place_of(text, token.start)),
        _ if len == token.start + 1 => ReadFault::Lex(LexFault::BadByte { at: token.start }),
        _ => unexpected_at(number as u32, place_of(text, token.start)),
    }
}

// Each proper front of a text that is whole has its own fault.
fn assert_fronts(
    rt: &impl Abort,
    alloc: Global,
    grammar: Grammar,
    text: &[u8],
) -> Result<(), Fail> {
    assert!(rt; text.len() <= 200);
    let tokens = lex(alloc, text)?;
    for len in 0..text.len() {
        let fault = fault_of_front(rt, text, &tokens, len as u32);
        assert_eq!(rt;
            fault_of(alloc, grammar, &text[..len]),
            Some(fault),
            "front of {len}"
        );
    }
    assert_eq!(rt; fault_of(alloc, grammar, text), None);
    Ok(())
}

#[test]
fn each_front_of_a_domain_has_its_own_fault(rt: HostRuntime) -> Result<(), Fail> {
    let text = b"#blackactions ; one\n:action a-1 :parameters (?x,?y)\r
:precondition (open(?x+27,ymin) NOT(white(?x,1))) :effect (black(xmax,?y-1)) #whiteactions";
    assert_fronts(&rt, rt.alloc(), Grammar::Domain, text)
}

#[test]
fn each_front_of_a_problem_has_its_own_fault(rt: HostRuntime) -> Result<(), Fail> {
    let text = b"#boardsize 14 04\n#init (black(1,12) open(2,2)) #depth 03 #first white
#blackgoals (black(?x,?y) NOT (white(?x+1,ymax)))\t() #whitegoals";
    assert_fronts(&rt, rt.alloc(), Grammar::Problem, text)
}
