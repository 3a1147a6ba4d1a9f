// The request `play`: transcripts, and the ways in which a play ends.
use crate::answers::{Answer, answer_against, plain_decider, shelf_of, words_of};
use crate::certificates::{PAIRS, TREE};
use crate::domains::OCCUPY;
use crate::opponents::{Watching, alone, program_opponents, scripted, typing};
use bddl_requests::run;
use game_play::{FirstMove, Opponent};
use io_edge::{MemoryShelf, MemorySink, SteadySink};
use std::alloc::Global;
use std::process::Abort;
use std::str;
use std::test::Fail;

// What is shown before White's reply.
const SHOWN: &[u8] =
    b"board\n..\n..\nblack occupy 1 1\nboard\nB.\n..\nmoves 3\n0 occupy 2 1\n1 occupy 1 2\n2 occupy 2 2\n";

// And behind the first reply, and behind the last.
const BEHIND_FIRST: &[u8] =
    b"white occupy 2 1\nboard\nBW\n..\nblack occupy 1 2\nboard\nBW\nB.\ngoal\n";

const BEHIND: &[u8] = b"white occupy 2 2\nboard\nB.\n.W\nblack occupy 2 1\nboard\nBB\n.W\ngoal\n";

const FIRST: [&[u8]; 6] = [b"play", b"d", b"p", b"c", b"0", b"0"];

const NEVER: usize = 1_000_000;

fn pairs_shelf(alloc: Global) -> Result<MemoryShelf, Fail> {
    let mut shelf = shelf_of(alloc, OCCUPY.as_bytes(), PAIRS.as_bytes())?;
    shelf.put_file(b"c", TREE.as_bytes())?;
    Ok(shelf)
}

// The play of the pairs against opponent 0 ends with this status, behind what is shown to White it
// writes this, and it notes this.
fn assert_play(
    rt: &impl Abort,
    alloc: Global,
    opponents: &mut Vec<Box<dyn Opponent>>,
    status: u8,
    behind: &[u8],
    note: &str,
) -> Result<(), Fail> {
    let answer = answer_against(alloc, &FIRST, &mut pairs_shelf(alloc)?, opponents)?;
    assert_eq!(rt; answer.note.as_slice(), note.as_bytes());
    assert_eq!(rt; answer.status, status);
    assert!(rt; answer.out.starts_with(SHOWN));
    assert_eq!(rt; answer.out.get(SHOWN.len()..), Some(behind));
    Ok(())
}

#[test]
fn the_first_move_is_answered(rt: HostRuntime) -> Result<(), Fail> {
    let mut opponents = alone(rt.alloc(), Box::new(rt.alloc(), FirstMove::new())?)?;
    assert_play(&rt, rt.alloc(), &mut opponents, 0, BEHIND_FIRST, "")
}

#[test]
fn a_script_is_followed_and_no_further(rt: HostRuntime) -> Result<(), Fail> {
    let mut opponents = scripted(rt.alloc(), &[2, 0])?;
    assert_play(&rt, rt.alloc(), &mut opponents, 0, BEHIND, "")?;
    assert_play(&rt, rt.alloc(), &mut opponents, 0, BEHIND_FIRST, "")?;
    assert_play(&rt, rt.alloc(), &mut opponents, 7, b"", "opponent gone\n")
}

#[test]
fn replies_that_were_not_shown_are_told(rt: HostRuntime) -> Result<(), Fail> {
    for (number, note) in [
        (9, "reply 9 of 3\n"),
        (3, "reply 3 of 3\n"),
        (18446744073709551615, "reply 18446744073709551615 of 3\n"),
    ] {
        let mut opponents = scripted(rt.alloc(), &[number])?;
        assert_play(&rt, rt.alloc(), &mut opponents, 8, b"", note)?;
    }
    Ok(())
}

#[test]
fn lines_that_are_typed_are_replies(rt: HostRuntime) -> Result<(), Fail> {
    let none = "reply 18446744073709551615 of 3\n";
    let cases: [(&'static [u8], u8, &[u8], &str); 9] = [
        (b"2\n", 0, BEHIND, ""),
        (b"002\n", 0, BEHIND, ""),
        (b"007\n", 8, b"", "reply 7 of 3\n"),
        (b"x\n", 8, b"", none),
        (b"\n", 8, b"", none),
        (
            b"00000000000000000000000000000000000000000000000000000000000000002\n",
            8,
            b"",
            none,
        ),
        (b"00000000000000000002\n", 8, b"", none),
        (b"2", 7, b"", "opponent gone\n"),
        (b"", 7, b"", "opponent gone\n"),
    ];
    for (text, status, behind, note) in &cases {
        let mut opponents = typing(rt.alloc(), text, NEVER)?;
        assert_play(&rt, rt.alloc(), &mut opponents, *status, behind, note)?;
    }
    Ok(())
}

#[test]
fn a_read_that_fails_ends_the_play(rt: HostRuntime) -> Result<(), Fail> {
    for call in 0..2 {
        let mut opponents = typing(rt.alloc(), b"2\n", call)?;
        assert_play(&rt, rt.alloc(), &mut opponents, 7, b"", "opponent gone\n")?;
    }
    let mut opponents = typing(rt.alloc(), b"2\n", 2)?;
    assert_play(&rt, rt.alloc(), &mut opponents, 0, BEHIND, "")
}

#[test]
fn a_player_is_given_the_board_and_the_moves(rt: HostRuntime) -> Result<(), Fail> {
    let mut opponents = alone(rt.alloc(), Box::new(rt.alloc(), Watching::new())?)?;
    assert_play(&rt, rt.alloc(), &mut opponents, 0, BEHIND, "")?;
    assert_play(&rt, rt.alloc(), &mut opponents, 0, BEHIND, "")
}

// The play of the pairs against an opponent of the program, begun with this number.
fn program_play(
    alloc: Global,
    opponents: &mut Vec<Box<dyn Opponent>>,
    who: &[u8],
    start: &[u8],
) -> Result<Answer, Fail> {
    let words: [&[u8]; 6] = [b"play", b"d", b"p", b"c", who, start];
    answer_against(alloc, &words, &mut pairs_shelf(alloc)?, opponents)
}

#[test]
fn one_number_leads_to_one_play(rt: HostRuntime) -> Result<(), Fail> {
    let mut opponents = program_opponents(rt.alloc())?;
    for start in [b"0".as_slice(), b"7", b"18446744073709551615"] {
        let first = program_play(rt.alloc(), &mut opponents, b"2", start)?;
        let second = program_play(rt.alloc(), &mut opponents, b"2", start)?;
        assert_eq!(rt; first.status, 0);
        assert_eq!(rt; first.out.as_slice(), second.out.as_slice());
    }
    Ok(())
}

#[test]
fn an_opponent_that_is_not_there_is_no_request(rt: HostRuntime) -> Result<(), Fail> {
    let mut opponents = program_opponents(rt.alloc())?;
    let answer = program_play(rt.alloc(), &mut opponents, b"3", b"0")?;
    assert!(rt; answer.status == 1 && answer.out.is_empty());
    assert_eq!(rt; answer.note.as_slice(), b"no such request\n".as_slice());
    for (who, status) in [(b"0".as_slice(), 7), (b"1", 0), (b"2", 0)] {
        let answer = program_play(rt.alloc(), &mut opponents, who, b"0")?;
        assert_eq!(rt; answer.status, status);
    }
    Ok(())
}

#[test]
fn a_refusal_leaves_the_script(rt: HostRuntime) -> Result<(), Fail> {
    let mut opponents = scripted(rt.alloc(), &[2])?;
    let mut shelf = pairs_shelf(rt.alloc())?;
    shelf.put_file(b"c", b"bddlcert 1 1\ng\n")?;
    let answer = answer_against(rt.alloc(), &FIRST, &mut shelf, &mut opponents)?;
    assert!(rt; answer.status == 6 && answer.out.is_empty());
    assert_eq!(rt;
        answer.note.as_slice(),
        b"certificate: node 0: goal does not stand\n".as_slice()
    );
    assert_play(&rt, rt.alloc(), &mut opponents, 0, BEHIND, "")
}

// A play whose write of this number fails after so many bytes: its status, and what was written.
fn cut_play(alloc: Global, call: u64, kept: u64) -> Result<(u8, MemorySink), Fail> {
    let words = words_of(alloc, &FIRST)?;
    let mut out = MemorySink::new(alloc);
    out.fail_at(call, kept)?;
    let status = run(
        alloc,
        &words,
        &mut pairs_shelf(alloc)?,
        &mut out,
        &mut SteadySink::new(alloc),
        &mut scripted(alloc, &[2])?,
        &mut plain_decider(alloc)?,
    );
    Ok((status, out))
}

// Four boards, two moves of Black, White's moves and its move, and the goal are a piece each.
#[test]
fn a_write_that_fails_leaves_a_front(rt: HostRuntime) -> Result<(), Fail> {
    let whole = [SHOWN, BEHIND].concat(rt.alloc())?;
    let mut length = 0;
    for call in 1..10 {
        for kept in [0, 3] {
            let (status, out) = cut_play(rt.alloc(), call, kept)?;
            assert_eq!(rt; status, 4, "{call}");
            assert!(rt; whole.starts_with(out.bytes()), "{call}");
            assert!(rt; length <= out.bytes().len(), "{call}");
            length = out.bytes().len();
        }
    }
    let (status, out) = cut_play(rt.alloc(), 10, 0)?;
    assert_eq!(rt; status, 0);
    assert_eq!(rt; out.bytes(), whole.as_slice());
    Ok(())
}

// How many moves White was shown last.
fn moves_shown(out: &[u8]) -> Result<u64, Fail> {
    let (_, behind) = str::from_utf8(out)?
        .rsplit_once("\nmoves ")
        .ok_or("no moves")?;
    let (count, _) = behind.split_once('\n').ok_or("no line")?;
    Ok(count.parse()?)
}

// The list followed by each reply that is shown behind it.
fn push_longer(
    alloc: Global,
    open: &mut Vec<Vec<u64>>,
    list: &[u64],
    count: u64,
) -> Result<(), Fail> {
    for number in 0..count {
        let mut longer = list.to_vec(alloc)?;
        longer.push(number)?;
        open.push(longer)?;
    }
    Ok(())
}

/// Under the certificate c of the shelf the play reaches the goal against each list of replies that are
/// shown.
pub fn assert_always_reached(
    rt: &impl Abort,
    alloc: Global,
    shelf: &mut MemoryShelf,
) -> Result<(), Fail> {
    let mut open: Vec<Vec<u64>> = Vec::new(alloc);
    open.push(Vec::new(alloc))?;
    for _list in 0..NEVER {
        let Some(list) = open.pop() else {
            return Ok(());
        };
        let mut opponents = scripted(alloc, &list)?;
        let answer = answer_against(alloc, &FIRST, shelf, &mut opponents)?;
        if answer.status == 7 {
            push_longer(alloc, &mut open, &list, moves_shown(&answer.out)?)?;
        } else {
            assert_eq!(rt; answer.status, 0);
            assert!(rt; answer.out.ends_with(b"\ngoal\n"));
        }
    }
    Err("there are too many lists".into())
}
