// The texts of trial games.
use bddl_make::{TrialKind, make_texts};
use std::alloc::Global;
use std::process::Abort;
use std::test::Fail;

const DOMAIN: &str = "#blackactions
:action occupy
:parameters (?x, ?y)
:precondition (open(?x,?y))
:effect (black(?x,?y))
#whiteactions
:action occupy
:parameters (?x, ?y)
:precondition (open(?x,?y))
:effect (white(?x,?y))
";

// The goals of a large game.
const FIVES: &str = "#blackgoals
(black(?x,?y) black(?x+1,?y) black(?x+2,?y) black(?x+3,?y) black(?x+4,?y))
(black(?x,?y) black(?x,?y+1) black(?x,?y+2) black(?x,?y+3) black(?x,?y+4))
(black(?x,?y) black(?x+1,?y+1) black(?x+2,?y+2) black(?x+3,?y+3) black(?x+4,?y+4))
(black(?x,?y) black(?x+1,?y-1) black(?x+2,?y-2) black(?x+3,?y-3) black(?x+4,?y-4))
#whitegoals
(white(?x,?y) white(?x+1,?y) white(?x+2,?y) white(?x+3,?y) white(?x+4,?y))
(white(?x,?y) white(?x,?y+1) white(?x,?y+2) white(?x,?y+3) white(?x,?y+4))
(white(?x,?y) white(?x+1,?y+1) white(?x+2,?y+2) white(?x+3,?y+3) white(?x+4,?y+4))
(white(?x,?y) white(?x+1,?y-1) white(?x+2,?y-2) white(?x+3,?y-3) white(?x+4,?y-4))
";

// The text of the number's problem of this kind is the one part behind the other.
fn assert_made(
    rt: &impl Abort,
    alloc: Global,
    number: u64,
    kind: TrialKind,
    start: &str,
    goals: &str,
) -> Result<(), Fail> {
    let made = make_texts(alloc, number, kind)?;
    assert_eq!(rt; made.domain.as_slice(), DOMAIN.as_bytes());
    let rest = made.problem.strip_prefix(start.as_bytes());
    assert_eq!(rt; rest, Some(goals.as_bytes()), "{number}");
    Ok(())
}

#[test]
fn the_large_games_of_some_numbers(rt: HostRuntime) -> Result<(), Fail> {
    let cases = [
        (
            0,
            "#boardsize 14 14\n#init (white(9,8) black(3,7) black(7,8) black(14,11) black(6,12) white(6,1) white(7,12) white(1,13) black(1,3) white(10,7) white(9,13) black(13,10) black(9,6) black(9,1) black(13,13) white(10,11) black(11,4) white(2,10) black(6,13))\n#depth 9\n",
        ),
        (
            1,
            "#boardsize 16 16\n#init (black(1,12) black(9,1) black(9,4) white(8,3) white(5,15) black(6,6) white(16,8) black(16,12) white(2,16) black(12,12) white(16,1) white(11,11) black(12,3) black(6,3) white(5,6) white(8,16) black(15,3) black(15,4) black(15,5) black(15,8))\n#depth 7\n",
        ),
        (
            18446744073709551615,
            "#boardsize 15 14\n#init (black(14,13) black(15,14) white(1,12) black(2,2) white(12,2) white(1,5) white(6,11) black(3,13) white(11,4) white(10,3) white(1,9) black(11,5) black(6,12) white(4,6) black(5,12) black(9,13) white(8,7) white(7,1) black(7,12) black(12,14))\n#depth 7\n",
        ),
    ];
    for (number, start) in cases {
        assert_made(&rt, rt.alloc(), number, TrialKind::Large, start, FIVES)?;
    }
    Ok(())
}

#[test]
fn the_small_games_of_some_numbers(rt: HostRuntime) -> Result<(), Fail> {
    let cases = [
        (
            0,
            "#boardsize 2 2\n#init ()\n#depth 2\n",
            "#blackgoals\n(black(?x,?y) black(?x+1,?y))\n(black(?x,?y) black(?x,?y+1))\n#whitegoals\n",
        ),
        (
            1,
            "#boardsize 2 2\n#init ()\n#depth 1\n",
            "#blackgoals\n(black(?x,?y) black(?x+1,?y))\n#whitegoals\n",
        ),
        (
            3,
            "#boardsize 2 2\n#init ()\n#depth 3\n",
            "#blackgoals\n(black(?x,?y) black(?x+1,?y))\n(black(?x,?y) black(?x,?y+1))\n#whitegoals\n",
        ),
        (
            18446744073709551615,
            "#boardsize 2 2\n#init ()\n#depth 2\n",
            "#blackgoals\n(black(?x,?y) black(?x+1,?y))\n#whitegoals\n",
        ),
    ];
    for (number, start, goals) in cases {
        assert_made(&rt, rt.alloc(), number, TrialKind::Small, start, goals)?;
    }
    Ok(())
}
