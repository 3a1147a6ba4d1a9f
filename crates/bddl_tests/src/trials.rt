// The request `trial`: two games of a number.

use crate::answers::{Answer, answer_of, assert_answer, shelf_of, text_of};
use bddl_make::{MadeTexts, TrialKind, make_texts};
use io_edge::MemoryShelf;
use std::alloc::Global;
use std::process::Abort;
use std::str;
use std::test::Fail;

// More steps than any small game needs.
const ENOUGH: &[u8] = b"10000000000";

fn assert_trial(
    rt: &impl Abort,
    alloc: Global,
    number: &str,
    steps: &[u8],
    status: u8,
    summary: &str,
) -> Result<(), Fail> {
    let mut shelf = MemoryShelf::new(alloc);
    let words: [&[u8]; 3] = [b"trial", number.as_bytes(), steps];
    assert_answer(
        rt,
        alloc,
        &words,
        &mut shelf,
        status,
        summary.as_bytes(),
        b"",
    )
}

#[test]
fn a_trial_tells_both_games_and_decides_the_small_one(rt: HostRuntime) -> Result<(), Fail> {
    let cases = [
        (
            "1",
            "large 16 16 7\ninputs 118\nlimit 49056\ngates within limit\nsmall 1 no win\n",
        ),
        (
            "3",
            "large 13 12 7\ninputs 118\nlimit 49056\ngates within limit\nsmall 3 win\n",
        ),
        (
            "5",
            "large 14 14 7\ninputs 118\nlimit 49056\ngates within limit\nsmall 3 no win\n",
        ),
    ];
    for (number, summary) in cases {
        assert_trial(&rt, rt.alloc(), number, ENOUGH, 0, summary)?;
    }
    Ok(())
}

#[test]
fn two_trials_of_a_number_write_the_same(rt: HostRuntime) -> Result<(), Fail> {
    let summary = "large 16 16 7\ninputs 118\nlimit 49056\ngates within limit\nsmall 1 no win\n";
    assert_trial(&rt, rt.alloc(), "1", ENOUGH, 0, summary)?;
    assert_trial(&rt, rt.alloc(), "1", ENOUGH, 0, summary)
}

#[test]
fn a_trial_without_steps_is_spent(rt: HostRuntime) -> Result<(), Fail> {
    let summary = "large 16 16 7\ninputs 118\nlimit 49056\ngates within limit\nsmall 1 spent\n";
    assert_trial(&rt, rt.alloc(), "1", b"0", 30, summary)
}

#[test]
fn the_least_and_the_greatest_number_make_games(rt: HostRuntime) -> Result<(), Fail> {
    let least = "large 14 14 9\ninputs 144\nlimit 55104\ngates within limit\nsmall 2 no win\n";
    assert_trial(&rt, rt.alloc(), "0", ENOUGH, 0, least)?;
    let greatest = "large 15 14 7\ninputs 118\nlimit 49056\ngates within limit\nsmall 2 no win\n";
    assert_trial(&rt, rt.alloc(), "18446744073709551615", ENOUGH, 0, greatest)
}

#[test]
fn words_that_are_no_trial(rt: HostRuntime) -> Result<(), Fail> {
    let cases: [&[&[u8]]; 5] = [
        &[b"trial"],
        &[b"trial", b"1"],
        &[b"trial", b"1", b"-1"],
        &[b"trial", b"18446744073709551616", b"1"],
        &[b"trial", b"1", b"1", b"1"],
    ];
    for words in cases {
        let mut shelf = MemoryShelf::new(rt.alloc());
        let note = b"no such request\n";
        assert_answer(&rt, rt.alloc(), words, &mut shelf, 1, b"", note)?;
    }
    Ok(())
}

// What a trial says last, behind the depth of the small game.
fn verdict_of(rt: &impl Abort, alloc: Global, number: &str) -> Result<(u8, Vec<u8>), Fail> {
    let mut shelf = MemoryShelf::new(alloc);
    let words: [&[u8]; 3] = [b"trial", number.as_bytes(), ENOUGH];
    let Answer { status, out, .. } = answer_of(alloc, &words, &mut shelf)?;
    assert_eq!(rt; status, 0);
    let text = str::from_utf8(&out)?;
    let (_, last) = text.split_once("\nsmall ").ok_or("no small game")?;
    let (depth, verdict) = last.split_once(' ').ok_or("no verdict")?;
    Ok((depth.parse::<u8>()?, verdict.as_bytes().to_vec(alloc)?))
}

#[test]
fn the_small_game_is_decided_as_its_texts_are(rt: HostRuntime) -> Result<(), Fail> {
    for (number, start) in (0..6u64).zip(["0", "1", "2", "3", "4", "5"]) {
        let MadeTexts { domain, problem } = make_texts(rt.alloc(), number, TrialKind::Small)?;
        let lines = problem.iter().filter(|byte| **byte == b'\n').count();
        let mut shelf = shelf_of(rt.alloc(), &domain, &problem)?;
        let words: [&[u8]; 4] = [b"solve", b"d", b"p", ENOUGH];
        let Answer { out, .. } = answer_of(rt.alloc(), &words, &mut shelf)?;
        let (depth, verdict) = verdict_of(&rt, rt.alloc(), start)?;
        assert_eq!(rt; out.as_slice(), verdict.as_slice(), "{start}");

        // Black wins where it has three plies and a second line.
        let won = verdict.as_slice() == b"win\n".as_slice();
        assert_eq!(rt; won, depth == 3 && lines == 7, "{start}");
    }
    Ok(())
}

#[test]
fn the_texts_of_a_large_game_are_accepted(rt: HostRuntime) -> Result<(), Fail> {
    let MadeTexts { domain, problem } = make_texts(rt.alloc(), 1, TrialKind::Large)?;
    let domain = str::from_utf8(&domain)?;
    let formula = text_of(&rt, rt.alloc(), domain, str::from_utf8(&problem)?)?;
    assert!(rt; formula.starts_with(b"p cnf "));
    Ok(())
}
