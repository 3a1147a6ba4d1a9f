// The lines of nodes.
ghost use Rattle.std.specs.Prelude.{◌≡◌};
ghost use Rattle.cert_text.specs.Reading as spec;
ghost use Rattle.cert_text.specs.Reading.{Finds, Gives, version_of};

use crate::header::Version;
use crate::number::{LONG, SHORT, byte, spaced};
use crate::stop::Stop;
use bddl_model::{Answered, Move, Node, NodeNo, ReplyList};
use std::alloc::Global;

#[tactic(auto, unfolding(crate::specs::Reading::move_at))]
fn a_move<'a>(bytes: &'a [u8]) -> Option<(Move, &'a [u8])>
    ensures { Finds (λ x. (x.0, x.1.now)) result (spec.move_at bytes.now) }
{
    let (action, rest) = spaced(bytes, SHORT)?;
    let (x, rest) = spaced(rest, SHORT)?;
    let (y, rest) = spaced(rest, SHORT)?;
    Some((
        Move {
            action: action as u32,
            x: x as u32,
            y: y as u32,
        },
        rest,
    ))
}

// The number of the next node, where it is said.
fn next<'a>(version: Version, bytes: &'a [u8]) -> Option<(u64, &'a [u8])>
    ensures { Finds (λ x. (x.0, x.1.now)) result (spec.next_at (version_of version) bytes.now) }
{
    match version {
        Version::Ordered => Some((0, bytes)),
        Version::Numbered => spaced(bytes, LONG),
    }
}

#[tactic(auto, unfolding(crate::specs::Reading::answer_at))]
fn answer<'a>(version: Version, bytes: &'a [u8]) -> Option<(Answered, &'a [u8])>
    ensures { Finds (λ x. (x.0, x.1.now)) result (spec.answer_at (version_of version) bytes.now) }
{
    let (mv, rest) = a_move(bytes)?;
    let (number, rest) = next(version, rest)?;
    let next = NodeNo(number);
    Some((Answered { mv, next }, rest))
}

#[tactic(auto, unfolding(crate::specs::Reading::goal_at))]
fn goal_line<'a>(bytes: &'a [u8]) -> Option<(Node, &'a [u8])>
    ensures { Finds (λ x. (x.0, x.1.now)) result (spec.goal_at bytes.now) }
{
    let rest = byte(bytes, b'\n')?;
    Some((Node::Goal, rest))
}

#[tactic(auto, unfolding(crate::specs::Reading::black_at))]
fn black_line<'a>(version: Version, bytes: &'a [u8]) -> Option<(Node, &'a [u8])>
    ensures { Finds (λ x. (x.0, x.1.now)) result (spec.black_at (version_of version) bytes.now) }
{
    let (Answered { mv, next }, rest) = answer(version, bytes)?;
    let rest = byte(rest, b'\n')?;
    Some((Node::Black { mv, next }, rest))
}

// So many answers.
fn answers<'a>(
    alloc: Global,
    version: Version,
    bytes: &'a [u8],
    count: u64,
) -> Result<(ReplyList, &'a [u8]), Stop>
    ensures { Gives (λ x. (x.0, x.1.now)) result (spec.answers_at (version_of version) count bytes.now) }
{
    let mut replies = ReplyList::new(alloc);
    let mut rest = bytes;
    let mut left = count;
    'replies: while left > 0 {
        let Some((reply, behind)) = answer(version, rest) else {
            return Err(Stop::Stuck);
        };
        replies.push(reply)?;
        rest = behind;
        left -= 1;
    }
    Ok((replies, rest))
}

#[tactic(auto, unfolding(crate::specs::Reading::white_at))]
fn white_line<'a>(
    alloc: Global,
    version: Version,
    bytes: &'a [u8],
) -> Result<(Node, &'a [u8]), Stop>
    ensures { Gives (λ x. (x.0, x.1.now)) result (spec.white_at (version_of version) bytes.now) }
{
    let (count, rest) = spaced(bytes, SHORT).ok_or(Stop::Stuck)?;
    let (replies, rest) = answers(alloc, version, rest, count)?;
    let rest = byte(rest, b'\n').ok_or(Stop::Stuck)?;
    Ok((Node::White { replies }, rest))
}

/// The line of a node, and the bytes behind it.
#[tactic(auto, unfolding(crate::specs::Reading::line_at))]
pub fn line<'a>(alloc: Global, version: Version, bytes: &'a [u8]) -> Result<(Node, &'a [u8]), Stop>
    ensures { Gives (λ x. (x.0, x.1.now)) result (spec.line_at (version_of version) bytes.now) }
{
    match bytes {
        [b'g', rest @ ..] => goal_line(rest).ok_or(Stop::Stuck),
        [b'b', rest @ ..] => black_line(version, rest).ok_or(Stop::Stuck),
        [b'w', rest @ ..] => white_line(alloc, version, rest),
        _ => Err(Stop::Stuck),
    }
}
