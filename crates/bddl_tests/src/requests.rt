// Requests of every kind, and how each may end.
use crate::answers::{
    DOMAIN, FORMULA, PROBLEM, answer_of, assert_answer, assert_note_fails, assert_out_fails,
    assert_refused, lines_behind_head, shelf_of,
};
use std::alloc::Global;
use std::process::Abort;
use std::test::Fail;

// The formula of a problem without actions begins so behind its first line.
fn assert_begins(rt: &impl Abort, alloc: Global, problem: &[u8], prefix: &str) -> Result<(), Fail> {
    let mut shelf = shelf_of(alloc, b"#blackactions;\n;#\n\r\t#whiteactions", problem)?;
    let answer = answer_of(alloc, &[b"compile", b"d", b"p"], &mut shelf)?;
    assert_eq!(rt; answer.status, 0);
    assert!(rt; lines_behind_head(&answer.out)?.starts_with(prefix));
    Ok(())
}

#[test]
fn boards_of_all_sizes_compile(rt: HostRuntime) -> Result<(), Fail> {
    let cases: [(&[u8], &str); 5] = [
        (PROBLEM, "e 1 2 0\n"),
        (
            b"#boardsize 3 2 #init () #depth 0 #blackgoals #whitegoals",
            "e 1 2 3 4 0\na 5 6 7 0\ne 8 ",
        ),
        (
            b"#boardsize 16 16 #init () #depth 0 #first white #blackgoals #whitegoals",
            "e 1 2 3 4 5 6 7 8 9 0\na 10 11 12 13 14 15 16 17 0\ne 18 ",
        ),
        (
            b"#boardsize 64 64 #init () #depth 0 #blackgoals #whitegoals",
            "e 1 2 3 4 5 6 7 8 9 10 11 12 13 0\na 14 15 16 17 18 19 20 21 22 23 24 25 0\ne 26 ",
        ),
        (
            b";\r\n\t#boardsize 02 01;a board\n#init( ) #depth 000\n#blackgoals\r#whitegoals ; no line feed",
            "e 1 2 0\na 3 0\ne 4 ",
        ),
    ];
    for (problem, prefix) in &cases {
        assert_begins(&rt, rt.alloc(), problem, prefix)?;
    }
    Ok(())
}

#[test]
fn other_words_are_no_request(rt: HostRuntime) -> Result<(), Fail> {
    let cases: [&[&[u8]]; 25] = [
        &[],
        &[b"resolve"],
        &[b"compile"],
        &[b"compile", b"d"],
        &[b"compile", b"d", b"p", b"p"],
        &[b"Compile", b"d", b"p"],
        &[b"fmt-domain"],
        &[b"fmt-problem", b"p", b"p"],
        &[b"fmt", b"d"],
        &[b"solve", b"d", b"p"],
        &[b"solve", b"d", b"p", b"+1"],
        &[b"solve", b"d", b"p", b"01"],
        &[b"solve", b"d", b"p", b"18446744073709551616"],
        &[b"solve", b"d", b"p", b"1", b"1"],
        &[b"qsolve", b"d"],
        &[b"qsolve", b"d", b""],
        &[b"qsolve", b"d", b"1 "],
        &[b"play", b"d", b"p", b"c"],
        &[b"play", b"d", b"p", b"c", b"0"],
        &[b"play", b"d", b"p", b"c", b"0", b"0"],
        &[b"play", b"d", b"p", b"c", b"00", b"0"],
        &[b"help", b"d"],
        &[b"--version", b"d"],
        &[b"-help"],
        &[b""],
    ];
    for words in &cases {
        let mut shelf = shelf_of(rt.alloc(), DOMAIN, PROBLEM)?;
        assert_answer(
            &rt,
            rt.alloc(),
            words,
            &mut shelf,
            1,
            b"",
            b"no such request\n",
        )?;
    }
    Ok(())
}

#[test]
fn a_file_that_is_not_held_is_told_by_its_word(rt: HostRuntime) -> Result<(), Fail> {
    let cases: [(&[u8], &[u8], &[u8]); 4] = [
        (b"q", b"p", b"word 2: read fault\n"),
        (b"d", b"q", b"word 3: read fault\n"),
        (b"q", b"q", b"word 2: read fault\n"),
        (b"p", b"q", b"word 3: read fault\n"),
    ];
    for (domain, problem, note) in &cases {
        let mut shelf = shelf_of(rt.alloc(), DOMAIN, PROBLEM)?;
        let words: [&[u8]; 3] = [b"compile", domain, problem];
        assert_answer(&rt, rt.alloc(), &words, &mut shelf, 3, b"", note)?;
    }
    Ok(())
}

#[test]
fn faults_of_a_domain_are_told_with_their_places(rt: HostRuntime) -> Result<(), Fail> {
    let cases: [(&[u8], &[u8]); 9] = [
        (b"", b"domain:1:1: text ends early\n"),
        (
            b"#blackactions :action a :parameters (?x, ?y) :precondition () :effect (",
            b"domain:1:72: text ends early\n",
        ),
        (
            b"#blackactions\n\n; the end\n",
            b"domain:4:1: text ends early\n",
        ),
        (b"#blackactions @", b"domain:1:15: bad byte\n"),
        (
            b"#blackactions ; a comment @\n  ?z",
            b"domain:2:3: bad byte\n",
        ),
        (
            b"#blackactions\r\n:action a234567890123456789012345678901_3",
            b"domain:2:9: name too long\n",
        ),
        (
            b"#blackactions\r1234567890",
            b"domain:1:15: number too long\n",
        ),
        (
            b"#whiteactions #blackactions",
            b"domain:1:1: unexpected word\n",
        ),
        (
            b"#blackactions\n#whiteactions\n\t)",
            b"domain:3:2: unexpected word\n",
        ),
    ];
    for (domain, note) in &cases {
        assert_refused(&rt, rt.alloc(), domain, b"", note)?;
    }
    Ok(())
}

#[test]
fn faults_of_a_problem_are_told_with_their_places(rt: HostRuntime) -> Result<(), Fail> {
    let cases: [(&[u8], &[u8]); 7] = [
        (b"", b"problem:1:1: text ends early\n"),
        (
            b"#boardsize 1 1 #init (",
            b"problem:1:23: text ends early\n",
        ),
        (b"#boardsize :", b"problem:1:12: bad byte\n"),
        (
            b"#boardsize 1 1\n; 1234567890\r\n #init 0000000001",
            b"problem:3:8: number too long\n",
        ),
        (
            b"#boardsize 1 1 #init (b234567890123456789012345678901_3",
            b"problem:1:23: name too long\n",
        ),
        (
            b"#boardsize 1 1 #init (black(1,1)\n#depth 0",
            b"problem:2:1: unexpected word\n",
        ),
        (
            b"#boardsize 1 1 #init () #depth 0 #blackgoals #whitegoals ()x",
            b"problem:1:60: unexpected word\n",
        ),
    ];
    let action: &[u8] =
        b"#blackactions :action a :parameters (?x, ?y) :precondition () :effect () #whiteactions";
    for (problem, note) in &cases {
        assert_refused(&rt, rt.alloc(), DOMAIN, problem, note)?;
        assert_refused(&rt, rt.alloc(), action, problem, note)?;
    }
    Ok(())
}

fn padded(alloc: Global, text: &[u8], length: usize) -> Result<Vec<u8>, Fail> {
    let mut bytes = text.to_vec(alloc)?;
    bytes.resize(length, b' ')?;
    Ok(bytes)
}

#[test]
fn a_file_may_be_as_long_as_the_limit(rt: HostRuntime) -> Result<(), Fail> {
    let mut shelf = shelf_of(rt.alloc(), DOMAIN, PROBLEM)?;
    shelf.put_file(b"longest", &padded(rt.alloc(), DOMAIN, 1_048_576)?)?;
    shelf.put_file(b"longer", &padded(rt.alloc(), DOMAIN, 1_048_577)?)?;
    let too_long: &[u8] = b"word 2: longer than 1048576 bytes\n";
    let cases: [(&[u8], &[u8], u8, &[u8], &[u8]); 5] = [
        (b"longest", b"p", 0, FORMULA, b""),
        (b"longer", b"p", 2, b"", too_long),
        (b"longer", b"missing", 2, b"", too_long),
        (b"missing", b"longer", 3, b"", b"word 2: read fault\n"),
        (
            b"p",
            b"longer",
            2,
            b"",
            b"word 3: longer than 1048576 bytes\n",
        ),
    ];
    for (domain, problem, status, out, note) in &cases {
        let words: [&[u8]; 3] = [b"compile", domain, problem];
        assert_answer(&rt, rt.alloc(), &words, &mut shelf, *status, out, note)?;
    }
    Ok(())
}

#[test]
fn the_one_file_of_a_request_is_that_of_word_2(rt: HostRuntime) -> Result<(), Fail> {
    let mut shelf = shelf_of(rt.alloc(), &padded(rt.alloc(), DOMAIN, 1_048_577)?, b"")?;
    let too_long: &[u8] = b"word 2: longer than 1048576 bytes\n";
    let cases: [(&[u8], &[u8], u8, &[u8]); 4] = [
        (b"fmt-domain", b"d", 2, too_long),
        (b"fmt-domain", b"q", 3, b"word 2: read fault\n"),
        (b"fmt-problem", b"d", 2, too_long),
        (b"fmt-problem", b"q", 3, b"word 2: read fault\n"),
    ];
    for (word, name, status, note) in &cases {
        assert_answer(
            &rt,
            rt.alloc(),
            &[word, name],
            &mut shelf,
            *status,
            b"",
            note,
        )?;
    }
    Ok(())
}

#[test]
fn each_failing_read_is_told(rt: HostRuntime) -> Result<(), Fail> {
    let cases: [(u64, &[u8]); 2] = [(1, b"word 2: read fault\n"), (2, b"word 3: read fault\n")];
    for (call, note) in &cases {
        let mut shelf = shelf_of(rt.alloc(), DOMAIN, PROBLEM)?;
        shelf.fail_at(*call)?;
        let words: [&[u8]; 3] = [b"compile", b"d", b"p"];
        assert_answer(&rt, rt.alloc(), &words, &mut shelf, 3, b"", note)?;
    }
    Ok(())
}

#[test]
fn each_failing_write_ends_the_call(rt: HostRuntime) -> Result<(), Fail> {
    for kept in [0, 1, 1000] {
        assert_out_fails(
            &rt,
            rt.alloc(),
            &[b"compile", b"d", b"p"],
            DOMAIN,
            kept,
            FORMULA,
        )?;
        assert_note_fails(&rt, rt.alloc(), &[b"resolve"], kept, b"no such request\n")?;
    }
    Ok(())
}
