// Requests over files in memory, and their answers.
use crate::reading_back::assert_reads_back;
use bddl_model::NoMemory;
use bddl_requests::run;
use game_play::Opponent;
use io_edge::{MemoryShelf, MemorySink, SteadySink};
use qbf_search::{Decider, PlainDecider};
use std::alloc::{AllocError, Global};
use std::process::Abort;
use std::str;
use std::test::Fail;

pub const DOMAIN: &[u8] = b"#blackactions #whiteactions";

pub const PROBLEM: &[u8] = b"#boardsize 1 1 #init () #depth 0 #blackgoals #whitegoals";

pub const FORMULA: &[u8] = b"p cnf 2 2\ne 1 2 0\n2 0\n-2 0\n";

pub fn shelf_of(alloc: Global, domain: &[u8], problem: &[u8]) -> Result<MemoryShelf, NoMemory> {
    let mut shelf = MemoryShelf::new(alloc);
    shelf.put_file(b"d", domain)?;
    shelf.put_file(b"p", problem)?;
    Ok(shelf)
}

pub fn words_of(alloc: Global, texts: &[&[u8]]) -> Result<Vec<Vec<u8>>, AllocError> {
    let mut words = Vec::new(alloc);
    for text in texts {
        words.push(text.to_vec(alloc)?)?;
    }
    Ok(words)
}

/// The decider that the program has.
pub fn plain_decider(alloc: Global) -> Result<Box<dyn Decider>, Fail> {
    Ok(Box::new(alloc, PlainDecider::new())?)
}

/// A status, and what was written to out and to note.
#[derive(Debug, Drop)]
pub struct Answer {
    pub status: u8,
    pub out: Vec<u8>,
    pub note: Vec<u8>,
}

pub fn answer_of(alloc: Global, words: &[&[u8]], shelf: &mut MemoryShelf) -> Result<Answer, Fail> {
    answer_under(alloc, words, shelf, &mut plain_decider(alloc)?)
}

/// The same against these opponents.
pub fn answer_against(
    alloc: Global,
    words: &[&[u8]],
    shelf: &mut MemoryShelf,
    opponents: &mut Vec<Box<dyn Opponent>>,
) -> Result<Answer, Fail> {
    let mut decider = plain_decider(alloc)?;
    answer_with(alloc, words, shelf, opponents, &mut decider)
}

/// The same under another decider.
pub fn answer_under(
    alloc: Global,
    words: &[&[u8]],
    shelf: &mut MemoryShelf,
    decider: &mut Box<dyn Decider>,
) -> Result<Answer, Fail> {
    let mut nobody = Vec::new(alloc);
    answer_with(alloc, words, shelf, &mut nobody, decider)
}

fn answer_with(
    alloc: Global,
    words: &[&[u8]],
    shelf: &mut MemoryShelf,
    opponents: &mut Vec<Box<dyn Opponent>>,
    decider: &mut Box<dyn Decider>,
) -> Result<Answer, Fail> {
    let words = words_of(alloc, words)?;
    let mut out = SteadySink::new(alloc);
    let mut note = SteadySink::new(alloc);
    let status = run(
        alloc, &words, shelf, &mut out, &mut note, opponents, decider,
    );
    Ok(Answer {
        status,
        out: out.bytes().to_vec(alloc)?,
        note: note.bytes().to_vec(alloc)?,
    })
}

/// The text that a game is compiled to, which reads back.
pub fn text_of(
    rt: &impl Abort,
    alloc: Global,
    domain: &str,
    problem: &str,
) -> Result<Vec<u8>, Fail> {
    let mut shelf = shelf_of(alloc, domain.as_bytes(), problem.as_bytes())?;
    let Answer { status, out, note } = answer_of(alloc, &[b"compile", b"d", b"p"], &mut shelf)?;
    assert!(rt; note.is_empty(), "{domain} {problem}");
    assert_eq!(rt; status, 0, "{domain} {problem}");
    assert_reads_back(rt, alloc, &out)?;
    Ok(out)
}

// The lines of a text behind its first.
pub fn lines_behind_head(text: &[u8]) -> Result<&str, Fail> {
    let text = str::from_utf8(text)?;
    let (_, lines) = text.split_once('\n').ok_or("no line")?;
    Ok(lines)
}

/// The request over the shelf ends with this status, and writes these two texts.
pub fn assert_answer(
    rt: &impl Abort,
    alloc: Global,
    words: &[&[u8]],
    shelf: &mut MemoryShelf,
    status: u8,
    out: &[u8],
    note: &[u8],
) -> Result<(), Fail> {
    let answer = answer_of(alloc, words, shelf)?;
    assert_eq!(rt; answer.note.as_slice(), note);
    assert_eq!(rt; answer.status, status);
    assert_eq!(rt; answer.out.as_slice(), out);
    Ok(())
}

/// A refusal of a request for two texts, of the names d and p: status 2, nothing in out, and this
/// note.
pub fn assert_request_refused(
    rt: &impl Abort,
    alloc: Global,
    words: &[&[u8]],
    domain: &[u8],
    problem: &[u8],
    note: &[u8],
) -> Result<(), Fail> {
    let mut shelf = shelf_of(alloc, domain, problem)?;
    assert_answer(rt, alloc, words, &mut shelf, 2, b"", note)
}

/// The same of `compile`.
pub fn assert_refused(
    rt: &impl Abort,
    alloc: Global,
    domain: &[u8],
    problem: &[u8],
    note: &[u8],
) -> Result<(), Fail> {
    assert_request_refused(rt, alloc, &[b"compile", b"d", b"p"], domain, problem, note)
}

/// The request over a domain and the smallest problem, of which the first write on out fails after so
/// many bytes: a front of the text is left.
pub fn assert_out_fails(
    rt: &impl Abort,
    alloc: Global,
    words: &[&[u8]],
    domain: &[u8],
    kept: u64,
    text: &[u8],
) -> Result<(), Fail> {
    let mut shelf = shelf_of(alloc, domain, PROBLEM)?;
    let mut out = MemorySink::new(alloc);
    out.fail_at(1, kept)?;
    let mut note = SteadySink::new(alloc);
    let words = words_of(alloc, words)?;
    let mut decider = plain_decider(alloc)?;
    let status = run(
        alloc,
        &words,
        &mut shelf,
        &mut out,
        &mut note,
        &mut Vec::new(alloc),
        &mut decider,
    );
    assert_eq!(rt; status, 4);
    assert_eq!(rt;
        Some(out.bytes()),
        text.get(..text.len().min(kept as usize))
    );
    assert!(rt; note.bytes().is_empty());
    Ok(())
}

/// The request is none, and the first write on note fails after so many bytes.
pub fn assert_note_fails(
    rt: &impl Abort,
    alloc: Global,
    words: &[&[u8]],
    kept: u64,
    text: &[u8],
) -> Result<(), Fail> {
    let mut shelf = shelf_of(alloc, DOMAIN, PROBLEM)?;
    let mut out = SteadySink::new(alloc);
    let mut note = MemorySink::new(alloc);
    note.fail_at(1, kept)?;
    let words = words_of(alloc, words)?;
    let mut decider = plain_decider(alloc)?;
    let status = run(
        alloc,
        &words,
        &mut shelf,
        &mut out,
        &mut note,
        &mut Vec::new(alloc),
        &mut decider,
    );
    assert_eq!(rt; status, 4);
    assert_eq!(rt;
        Some(note.bytes()),
        text.get(..text.len().min(kept as usize))
    );
    assert!(rt; out.bytes().is_empty());
    Ok(())
}
