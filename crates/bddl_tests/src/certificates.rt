// The requests `check` and `recert`: certificates that are accepted, and what is told of others.
use crate::answers::{assert_answer, shelf_of};
use crate::domains::OCCUPY;
use std::alloc::{AllocError, Global};
use std::process::Abort;
use std::str;
use std::test::Fail;

/// Two stones in a row or in a column, within three plies.
pub const PAIRS: &str =
    "#boardsize 2 2 #init () #depth 3 #blackgoals (black(?x,?y) black(?x+1,?y)) (black(?x,?y) black(?x,?y+1)) #whitegoals";

/// A strategy for it as a tree.
pub const TREE: &str =
    "bddlcert 1 8\nb 0 1 1\nw 3 0 2 1 0 1 2 0 2 2\nb 0 1 2\ng\nb 0 2 1\ng\nb 0 2 1\ng\n";

// The same with a node for each place.
const SHARED: &str =
    "bddlcert 2 8\nb 0 1 1 1\nw 3 0 2 1 2 0 1 2 3 0 2 2 4\nb 0 1 2 5\nb 0 2 1 6\nb 0 2 1 7\ng\ng\ng\n";

// What the request says of a certificate for the game.
fn assert_told(
    rt: &impl Abort,
    alloc: Global,
    request: &[u8],
    game: (&str, &str),
    certificate: &str,
    told: (u8, &str, &str),
) -> Result<(), Fail> {
    let mut shelf = shelf_of(alloc, game.0.as_bytes(), game.1.as_bytes())?;
    shelf.put_file(b"c", certificate.as_bytes())?;
    let (status, out, note) = told;
    let words: [&[u8]; 4] = [request, b"d", b"p", b"c"];
    assert_answer(
        rt,
        alloc,
        &words,
        &mut shelf,
        status,
        out.as_bytes(),
        note.as_bytes(),
    )
}

// It is accepted, and this is its shared form.
fn assert_accepted(
    rt: &impl Abort,
    alloc: Global,
    game: (&str, &str),
    certificate: &str,
    shared: &str,
) -> Result<(), Fail> {
    assert_told(
        rt,
        alloc,
        b"check",
        game,
        certificate,
        (0, "accepted\n", ""),
    )?;
    assert_told(rt, alloc, b"recert", game, certificate, (0, shared, ""))
}

// Both requests refuse it, and this is noted behind `certificate: `.
fn assert_refused(
    rt: &impl Abort,
    alloc: Global,
    game: (&str, &str),
    certificate: &str,
    words: &str,
) -> Result<(), Fail> {
    let note = format!(in alloc; "certificate: {words}\n")?;
    assert_told(rt, alloc, b"check", game, certificate, (6, "", &note))?;
    assert_told(rt, alloc, b"recert", game, certificate, (6, "", &note))
}

// The same of each of these certificates of the pairs.
fn assert_all_refused(rt: &impl Abort, alloc: Global, cases: &[(&str, &str)]) -> Result<(), Fail> {
    for (certificate, words) in cases {
        assert_refused(rt, alloc, (OCCUPY, PAIRS), certificate, words)?;
    }
    Ok(())
}

#[test]
fn a_tree_and_its_shared_form_are_accepted(rt: HostRuntime) -> Result<(), Fail> {
    assert_accepted(&rt, rt.alloc(), (OCCUPY, PAIRS), TREE, SHARED)?;
    assert_accepted(&rt, rt.alloc(), (OCCUPY, PAIRS), SHARED, SHARED)
}

#[test]
fn two_lines_of_play_lead_to_one_place(rt: HostRuntime) -> Result<(), Fail> {
    let domain =
        "#blackactions :action wait :parameters (?x,?y) :precondition () :effect () #whiteactions :action occupy :parameters (?x,?y) :precondition (open(?x,?y)) :effect (white(?x,?y))";
    let problem =
        "#boardsize 2 1 #init () #depth 3 #first white #blackgoals (white(1,1) white(2,1)) #whitegoals";
    let tree = "bddlcert 1 7\nw 2 0 1 1 0 2 1\nb 0 1 1\nw 1 0 2 1\ng\nb 0 1 1\nw 1 0 1 1\ng\n";
    let shared =
        "bddlcert 2 6\nw 2 0 1 1 1 0 2 1 2\nb 0 1 1 3\nb 0 1 1 4\nw 1 0 2 1 5\nw 1 0 1 1 5\ng\n";
    assert_accepted(&rt, rt.alloc(), (domain, problem), tree, shared)
}

#[test]
fn a_goal_that_stands_needs_no_move(rt: HostRuntime) -> Result<(), Fail> {
    let problem = "#boardsize 1 1 #init (black(1,1)) #depth 0 #blackgoals (black(1,1)) #whitegoals";
    let game = (OCCUPY, problem);
    assert_accepted(
        &rt,
        rt.alloc(),
        game,
        "bddlcert 1 1\ng\n",
        "bddlcert 2 1\ng\n",
    )
}

#[test]
fn texts_that_are_no_certificate_are_told(rt: HostRuntime) -> Result<(), Fail> {
    let cases = [
        ("", "bad header"),
        ("bddlcert 3 1\ng\n", "bad header"),
        ("bddlcert 2 0\n", "bad header"),
        ("bddlcert 1 1\n", "node 0: text ends early"),
        ("bddlcert 1 1\ng", "node 0: bad line"),
        ("bddlcert 1 0\ng\n", "count differs: said 0, found 1"),
        ("bddlcert 1 1\ng\n\n", "node 1: not used"),
        ("bddlcert 1 1\nw 999999999 0 1 1\n", "node 0: bad line"),
        (
            "bddlcert 2 2\nb 0 1 1 0\ng\n",
            "node 0: next node is not later",
        ),
        (
            "bddlcert 2 2\nb 0 1 1 2\ng\n",
            "node 0: next node is not later",
        ),
        ("bddlcert 2 2\ng\ng\n", "node 1: not reached"),
        ("bddlcert 2 1\ng\ng\n", "node 1: not used"),
    ];
    assert_all_refused(&rt, rt.alloc(), &cases)
}

#[test]
fn the_count_may_be_the_greatest_number(rt: HostRuntime) -> Result<(), Fail> {
    let text =
        "bddlcert 1 18446744073709551615\nb 0 1 1\nw 3 0 2 1 0 1 2 0 2 2\nb 0 1 2\ng\nb 0 2 1\ng\nb 0 2 1\ng\n";
    let words = "count differs: said 18446744073709551615, found 8";
    assert_refused(&rt, rt.alloc(), (OCCUPY, PAIRS), text, words)
}

#[test]
fn a_reply_that_is_left_out_is_told(rt: HostRuntime) -> Result<(), Fail> {
    let cases = [
        (
            "bddlcert 1 6\nb 0 1 1\nw 2 0 2 1 0 1 2\nb 0 1 2\ng\nb 0 2 1\ng\n",
            "node 1: replies differ at 2",
        ),
        (
            "bddlcert 1 6\nb 0 1 1\nw 2 0 1 2 0 2 2\nb 0 2 1\ng\nb 0 2 1\ng\n",
            "node 1: replies differ at 0",
        ),
        (
            "bddlcert 1 2\nb 0 1 1\nw 0\n",
            "node 1: replies differ at 0",
        ),
    ];
    assert_all_refused(&rt, rt.alloc(), &cases)
}

#[test]
fn each_fault_of_a_node_is_told(rt: HostRuntime) -> Result<(), Fail> {
    let cases = [
        ("bddlcert 1 1\ng\n", "node 0: goal does not stand"),
        ("bddlcert 1 2\nw 1 0 1 1\ng\n", "node 0: wrong side"),
        ("bddlcert 1 3\nb 0 1 1\nb 0 2 1\ng\n", "node 1: wrong side"),
        ("bddlcert 1 2\nb 1 1 1\ng\n", "node 0: illegal move"),
        ("bddlcert 1 2\nb 0 3 1\ng\n", "node 0: illegal move"),
        (
            "bddlcert 2 7\nb 0 1 1 1\nw 3 0 2 1 2 0 1 2 3 0 2 2 4\nb 0 1 2 5\nb 0 2 1 5\nb 0 2 1 6\ng\ng\n",
            "node 5: two places",
        ),
        (
            "bddlcert 1 8\nb 0 1 1\nw 3 0 2 1 0 1 2 0 2 2\nb 0 2 2\ng\nb 0 2 1\ng\nb 0 2 1\ng\n",
            "node 3: goal does not stand",
        ),
    ];
    assert_all_refused(&rt, rt.alloc(), &cases)
}

#[test]
fn plies_and_moves_may_run_out(rt: HostRuntime) -> Result<(), Fail> {
    let short =
        "#boardsize 2 2 #init () #depth 2 #blackgoals (black(?x,?y) black(?x+1,?y)) (black(?x,?y) black(?x,?y+1)) #whitegoals";
    assert_refused(
        &rt,
        rt.alloc(),
        (OCCUPY, short),
        TREE,
        "node 2: plies spent",
    )?;
    let one = "#boardsize 1 1 #init () #depth 2 #blackgoals (white(1,1)) #whitegoals";
    let text = "bddlcert 1 2\nb 0 1 1\nw 0\n";
    assert_refused(
        &rt,
        rt.alloc(),
        (OCCUPY, one),
        text,
        "node 1: white is stuck",
    )?;
    let lost =
        "#boardsize 2 1 #init (white(1,1)) #depth 1 #blackgoals (black(?x,?y)) #whitegoals (white(?x,?y))";
    let text = "bddlcert 1 2\nb 0 2 1\ng\n";
    assert_refused(
        &rt,
        rt.alloc(),
        (OCCUPY, lost),
        text,
        "node 0: white goal stands",
    )
}

// What is told of a front of a certificate's text, behind `certificate: `.
fn words_of_front(alloc: Global, front: &[u8]) -> Result<String, AllocError> {
    let lines = front.iter().filter(|byte| **byte == b'\n').count();
    if lines == 0 {
        return format!(in alloc; "bad header");
    }
    let node = lines - 1;
    if front.ends_with(b"\n") {
        format!(in alloc; "node {node}: text ends early")
    } else {
        format!(in alloc; "node {node}: bad line")
    }
}

#[test]
fn each_front_of_a_text_is_refused(rt: HostRuntime) -> Result<(), Fail> {
    let text = TREE.as_bytes();
    for end in 0..text.len() {
        let words = words_of_front(rt.alloc(), &text[..end])?;
        let front = str::from_utf8(&text[..end])?;
        assert_refused(&rt, rt.alloc(), (OCCUPY, PAIRS), front, &words)?;
    }
    Ok(())
}

#[test]
fn a_chain_of_nodes_is_as_deep_as_its_text(rt: HostRuntime) -> Result<(), Fail> {
    let mut text = String::new(rt.alloc());
    text.push_str("bddlcert 1 100001\n")?;
    for _node in 0..100_000 {
        text.push_str("b 0 1 1\n")?;
    }
    text.push_str("g\n")?;
    assert_refused(
        &rt,
        rt.alloc(),
        (OCCUPY, PAIRS),
        &text,
        "node 1: wrong side",
    )
}

#[test]
fn faults_of_the_game_come_first(rt: HostRuntime) -> Result<(), Fail> {
    let told = (2, "", "problem:1:16: text ends early\n");
    assert_told(
        &rt,
        rt.alloc(),
        b"check",
        (OCCUPY, "#boardsize 17 1"),
        "",
        told,
    )?;
    let mut shelf = shelf_of(rt.alloc(), OCCUPY.as_bytes(), PAIRS.as_bytes())?;
    let words: [&[u8]; 4] = [b"check", b"d", b"p", b"c"];
    let note = b"word 4: read fault\n";
    assert_answer(&rt, rt.alloc(), &words, &mut shelf, 3, b"", note)
}
