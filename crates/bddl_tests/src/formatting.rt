// Canonical texts, by the requests `fmt-domain` and `fmt-problem`.

use crate::answers::{assert_answer, assert_out_fails, assert_request_refused, shelf_of};
use std::alloc::Global;
use std::process::Abort;
use std::test::Fail;

const OCCUPYING: &[u8] = b"#blackactions
:action occupy
:parameters (?x, ?y)
:precondition (open(?x,?y))
:effect (black(?x,?y))
#whiteactions
:action occupy
:parameters (?x, ?y)
:precondition (open(?x,?y))
:effect (white(?x,?y))
";

const ON_ONE_LINE: &[u8] =
    b"#blackactions :action occupy :parameters (?x,?y) :precondition (open(?x+0,?y)) :effect(black (?x,?y)) #whiteactions :action occupy :parameters (?x ,?y) :precondition(open(?x,?y)) :effect (white(?x,?y)) ; that is all";

const SIX_LINES: &[u8] =
    b"#boardsize 2 2\n#init ()\n#depth 0\n#blackgoals\n(black(xmin,2))\n#whitegoals\n";

// The request of this word writes this text for the bytes of its file.
fn assert_written(
    rt: &impl Abort,
    alloc: Global,
    word: &[u8],
    bytes: &[u8],
    text: &[u8],
) -> Result<(), Fail> {
    let mut shelf = shelf_of(alloc, bytes, b"")?;
    assert_answer(rt, alloc, &[word, b"d"], &mut shelf, 0, text, b"")
}

#[test]
fn a_domain_on_one_line_gets_its_lines(rt: HostRuntime) -> Result<(), Fail> {
    assert_written(&rt, rt.alloc(), b"fmt-domain", ON_ONE_LINE, OCCUPYING)
}

#[test]
fn a_problem_on_one_line_gets_its_lines(rt: HostRuntime) -> Result<(), Fail> {
    let problem = b"#boardsize 02 2 #init () #depth 0 #blackgoals (black(xmin,02)) #whitegoals";
    assert_written(&rt, rt.alloc(), b"fmt-problem", problem, SIX_LINES)
}

#[test]
fn a_canonical_text_stays_as_it_is(rt: HostRuntime) -> Result<(), Fail> {
    assert_written(&rt, rt.alloc(), b"fmt-domain", OCCUPYING, OCCUPYING)?;
    assert_written(&rt, rt.alloc(), b"fmt-problem", SIX_LINES, SIX_LINES)
}

#[test]
fn a_negated_test_is_printed_so(rt: HostRuntime) -> Result<(), Fail> {
    let domain =
        b"#blackactions :action a :parameters (?x,?y) :precondition (open(?x,?y) NOT ( open ( ?x , ?y+01 ) ) ) :effect () #whiteactions";
    let text =
        b"#blackactions\n:action a\n:parameters (?x, ?y)\n:precondition (open(?x,?y) NOT(open(?x,?y+1)))\n:effect ()\n#whiteactions\n";
    assert_written(&rt, rt.alloc(), b"fmt-domain", domain, text)?;
    let problem =
        b"#boardsize 1 2\n#init ()\n#depth 0\n#blackgoals\n(NOT(black(?x,1)))\n#whitegoals\n(NOT(open(xmin,ymax)) white(1,1))\n";
    assert_written(&rt, rt.alloc(), b"fmt-problem", problem, problem)
}

#[test]
fn the_first_side_is_printed_where_it_is_white(rt: HostRuntime) -> Result<(), Fail> {
    let white = b"#boardsize 1 1\n#init ()\n#depth 2\n#first white\n#blackgoals\n#whitegoals\n";
    assert_written(&rt, rt.alloc(), b"fmt-problem", white, white)?;
    let black = b"#boardsize 1 1 #init () #depth 2 #first black #blackgoals #whitegoals";
    let text = b"#boardsize 1 1\n#init ()\n#depth 2\n#blackgoals\n#whitegoals\n";
    assert_written(&rt, rt.alloc(), b"fmt-problem", black, text)
}

#[test]
fn what_a_problem_says_is_not_checked(rt: HostRuntime) -> Result<(), Fail> {
    let problem =
        b"#boardsize 0 99\n#init (black(7,0) white(7,0))\n#depth 100\n#blackgoals\n#whitegoals\n()\n(open(?x-5,ymax) white(?x+999999999,?y))\n";
    assert_written(&rt, rt.alloc(), b"fmt-problem", problem, problem)
}

// A request, the bytes of its file, and the note.
const FAULTS: [(&[u8], &[u8], &[u8]); 11] = [
    (b"fmt-domain", b"", b"domain:1:1: text ends early\n"),
    (b"fmt-domain", SIX_LINES, b"domain:1:1: unexpected word\n"),
    (
        b"fmt-domain",
        b"#blackactions\n?",
        b"domain:2:1: bad byte\n",
    ),
    (b"fmt-problem", OCCUPYING, b"problem:1:1: unexpected word\n"),
    (
        b"fmt-problem",
        b"#boardsize 1 1234567890",
        b"problem:1:14: number too long\n",
    ),
    (
        b"fmt-problem",
        b"#boardsize 1 1 #init () #depth 1 #first #blackgoals",
        b"problem:1:41: unexpected word\n",
    ),
    (
        b"fmt-problem",
        b"#boardsize 1 1 #init () #depth 1 #first open",
        b"problem:1:41: unexpected word\n",
    ),
    (
        b"fmt-problem",
        b"#boardsize 1 1 #init (NOT(open(1,1)))",
        b"problem:1:23: unexpected word\n",
    ),
    (
        b"fmt-domain",
        b"#blackactions :action a :parameters (?x,?y) :precondition (NOT(NOT(open(1,1))))",
        b"domain:1:64: unexpected word\n",
    ),
    (
        b"fmt-domain",
        b"#blackactions :action a :parameters (?x,?y) :precondition (not(open(1,1)))",
        b"domain:1:60: unexpected word\n",
    ),
    (
        b"fmt-domain",
        b"#blackactions :action a :parameters (?x,?y) :precondition () :effect (NOT(open(1,1)))",
        b"domain:1:71: unexpected word\n",
    ),
];

#[test]
fn faults_are_told_with_their_places(rt: HostRuntime) -> Result<(), Fail> {
    for (word, bytes, note) in &FAULTS {
        assert_request_refused(&rt, rt.alloc(), &[word, b"d"], bytes, b"", note)?;
    }
    Ok(())
}

#[test]
fn a_failing_write_leaves_a_front(rt: HostRuntime) -> Result<(), Fail> {
    for kept in [0, 1, 1000] {
        assert_out_fails(
            &rt,
            rt.alloc(),
            &[b"fmt-domain", b"d"],
            ON_ONE_LINE,
            kept,
            OCCUPYING,
        )?;
    }
    Ok(())
}
