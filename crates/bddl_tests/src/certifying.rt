// The request `certify`: strategies that are found, and that `check` accepts them.
use crate::answers::{Answer, answer_of, assert_answer, shelf_of};
use crate::certificates::PAIRS;
use crate::domains::OCCUPY;
use crate::games::FIVE;
use crate::plays::assert_always_reached;
use std::alloc::Global;
use std::process::Abort;
use std::test::Fail;

// The bound of the steps of a certificate for the pairs.
const BOUND: &[u8] = b"23300014122";

/// A strategy for the game is found where it is won, is accepted, is its own shared form, and reaches the
/// goal against every list of replies. Where it isn't won, this is noted.
pub fn assert_certified(
    rt: &impl Abort,
    alloc: Global,
    domain: &str,
    problem: &str,
    won: bool,
) -> Result<(), Fail> {
    let mut shelf = shelf_of(alloc, domain.as_bytes(), problem.as_bytes())?;
    let words: [&[u8]; 4] = [b"certify", b"d", b"p", BOUND];
    if !won {
        return assert_answer(rt, alloc, &words, &mut shelf, 20, b"", b"no win\n");
    }
    let Answer { status, out, note } = answer_of(alloc, &words, &mut shelf)?;
    assert_eq!(rt; status, 10, "{domain} {problem}");
    assert!(rt; note.is_empty(), "{domain} {problem}");
    shelf.put_file(b"c", &out)?;
    let words: [&[u8]; 4] = [b"check", b"d", b"p", b"c"];
    assert_answer(rt, alloc, &words, &mut shelf, 0, b"accepted\n", b"")?;
    let words: [&[u8]; 4] = [b"recert", b"d", b"p", b"c"];
    assert_answer(rt, alloc, &words, &mut shelf, 0, &out, b"")?;
    assert_always_reached(rt, alloc, &mut shelf)
}

#[test]
fn the_bound_is_enough_for_the_pairs(rt: HostRuntime) -> Result<(), Fail> {
    assert_certified(&rt, rt.alloc(), OCCUPY, PAIRS, true)
}

#[test]
fn no_steps_are_spent_at_once(rt: HostRuntime) -> Result<(), Fail> {
    for problem in [PAIRS, FIVE] {
        let mut shelf = shelf_of(rt.alloc(), OCCUPY.as_bytes(), problem.as_bytes())?;
        for budget in [b"0".as_slice(), b"1".as_slice()] {
            let words: [&[u8]; 4] = [b"certify", b"d", b"p", budget];
            assert_answer(&rt, rt.alloc(), &words, &mut shelf, 30, b"", b"spent\n")?;
        }
    }
    Ok(())
}

#[test]
fn a_goal_at_the_start_takes_one_step(rt: HostRuntime) -> Result<(), Fail> {
    let problem = "#boardsize 1 1 #init (black(1,1)) #depth 0 #blackgoals (black(1,1)) #whitegoals";
    let mut shelf = shelf_of(rt.alloc(), OCCUPY.as_bytes(), problem.as_bytes())?;
    let words: [&[u8]; 4] = [b"certify", b"d", b"p", b"1"];
    assert_answer(
        &rt,
        rt.alloc(),
        &words,
        &mut shelf,
        10,
        b"bddlcert 2 1\ng\n",
        b"",
    )?;
    let words: [&[u8]; 4] = [b"certify", b"d", b"p", b"0"];
    assert_answer(&rt, rt.alloc(), &words, &mut shelf, 30, b"", b"spent\n")
}
