// Layouts of small games, part by part.
use crate::setups::setup_of;
use bddl_model::{Quant, Side, Span};
use move_code::Layout;
use std::alloc::Global;
use std::fmt::Write;
use std::process::Abort;
use std::test::Fail;

// The layout of a game of two texts that so many plies are played in, this side first.
fn layout_of(
    rt: &impl Abort,
    alloc: Global,
    (domain, problem): (&str, &str),
    first: Side,
    depth: u32,
) -> Result<Layout, Fail> {
    assert!(rt; depth <= 31);
    let setup = setup_of(alloc, domain, problem)?;
    Ok(Layout::of(alloc, &setup.game, first, depth)?)
}

// On 2 by 2, an action of Black and two lines of two tests.
const WITHOUT_WHITE: (&str, &str) = (
    "#blackactions :action act :parameters (?x,?y) :precondition (open(?x,?y)) :effect () #whiteactions",
    LINES_OF_BLACK,
);

// The same with an action of White.
const TWO_BY_TWO: (&str, &str) = (
    "#blackactions :action act :parameters (?x,?y) :precondition (open(?x,?y)) :effect ()
#whiteactions :action act :parameters (?x,?y) :precondition (open(?x,?y)) :effect ()",
    LINES_OF_BLACK,
);

const LINES_OF_BLACK: &str =
    "#boardsize 2 2 #init () #depth 0 #blackgoals (black(?x,?y) black(?x,?y)) (open(?x,?y) black(?x,?y)) #whitegoals";

// On 3 by 2, two actions of White of up to three preconditions, and three lines of up to three
// tests.
const WITH_LINES_OF_WHITE: (&str, &str) = (
    "#blackactions :action act :parameters (?x,?y) :precondition () :effect ()
#whiteactions
:action act :parameters (?x,?y) :precondition (open(?x,?y) open(?x,?y) open(?x,?y)) :effect ()
:action other :parameters (?x,?y) :precondition (open(?x,?y)) :effect ()",
    "#boardsize 3 2 #init () #depth 0 #blackgoals (open(?x,?y))
#whitegoals (white(?x,?y)) (white(?x,?y) white(?x,?y) white(?x,?y)) (white(?x,?y) open(?x,?y))",
);

fn write_span(text: &mut String, span: Span) -> Result<(), Fail> {
    Ok(write!(text, " {}+{}", span.from, span.len)?)
}

// A side with its sample and its code, for each ply.
fn plies_of(alloc: Global, layout: &Layout) -> Result<String, Fail> {
    let mut text = String::new(alloc);
    for ply in &layout.plies {
        text.push_str(match ply.side {
            Side::Black => "black",
            Side::White => "white",
        })?;
        write_span(&mut text, ply.sample)?;
        write_span(&mut text, ply.code)?;
        text.push_str("\n")?;
    }
    Ok(text)
}

// Black's claim, White's goal, what refutes it, and the place.
fn parts_of(alloc: Global, layout: &Layout) -> Result<String, Fail> {
    let mut text = String::new(alloc);
    for span in [
        layout.kind,
        layout.time,
        layout.line,
        layout.anchor,
        layout.atom,
        layout.white_line,
        layout.white_anchor,
        layout.white_time,
        layout.refuting,
        layout.place,
    ] {
        write_span(&mut text, span)?;
    }
    Ok(text)
}

fn blocks_of(alloc: Global, layout: &Layout) -> Result<String, Fail> {
    let mut text = String::new(alloc);
    for block in &layout.blocks(alloc)? {
        text.push_str(match block.quant {
            Quant::Exists => "e",
            Quant::All => "a",
        })?;
        write_span(&mut text, block.span)?;
        text.push_str("\n")?;
    }
    Ok(text)
}

// Each span is its first variable and its length.
fn assert_layout(
    rt: &impl Abort,
    alloc: Global,
    layout: &Layout,
    plies: &str,
    parts: &str,
    blocks: &str,
) -> Result<(), Fail> {
    assert_eq!(rt; plies_of(alloc, layout)?.as_str(), plies);
    assert_eq!(rt; parts_of(alloc, layout)?.as_str(), parts);
    assert_eq!(rt; blocks_of(alloc, layout)?.as_str(), blocks);
    Ok(())
}

#[test]
fn the_parts_follow_the_plies(rt: HostRuntime) -> Result<(), Fail> {
    let layout = layout_of(&rt, rt.alloc(), TWO_BY_TWO, Side::Black, 3)?;
    assert_eq!(rt; layout.inputs, 16);
    assert_layout(
        &rt,
        rt.alloc(),
        &layout,
        "black 1+0 1+2\nwhite 3+2 5+2\nblack 7+0 7+2\n",
        " 9+1 10+2 12+1 13+2 15+0 15+0 15+0 15+0 15+0 15+2",
        "e 1+2\ne 3+2\na 5+2\ne 7+2\ne 9+6\na 15+0\ne 15+0\na 15+2\n",
    )
}

#[test]
fn without_plies_the_claim_begins(rt: HostRuntime) -> Result<(), Fail> {
    let layout = layout_of(&rt, rt.alloc(), TWO_BY_TWO, Side::Black, 0)?;
    assert_layout(
        &rt,
        rt.alloc(),
        &layout,
        "",
        " 1+1 2+0 2+1 3+2 5+0 5+0 5+0 5+0 5+0 5+2",
        "e 1+4\na 5+0\ne 5+0\na 5+2\n",
    )
}

#[test]
fn a_side_without_actions_has_no_code(rt: HostRuntime) -> Result<(), Fail> {
    let layout = layout_of(&rt, rt.alloc(), WITHOUT_WHITE, Side::Black, 3)?;
    assert_layout(
        &rt,
        rt.alloc(),
        &layout,
        "black 1+0 1+2\nwhite 3+0 3+0\nblack 3+0 3+2\n",
        " 5+1 6+2 8+1 9+2 11+0 11+0 11+0 11+0 11+0 11+2",
        "e 1+2\ne 3+0\na 3+0\ne 3+2\ne 5+6\na 11+0\ne 11+0\na 11+2\n",
    )
}

#[test]
fn lines_of_white_have_their_parts_and_are_universal(rt: HostRuntime) -> Result<(), Fail> {
    let layout = layout_of(&rt, rt.alloc(), WITH_LINES_OF_WHITE, Side::Black, 2)?;
    assert_eq!(rt; layout.inputs, 31);
    assert_layout(
        &rt,
        rt.alloc(),
        &layout,
        "black 1+0 1+3\nwhite 4+4 8+4\n",
        " 12+1 13+2 15+0 15+3 18+2 20+2 22+3 25+2 27+2 29+3",
        "e 1+3\ne 4+4\na 8+4\ne 12+8\na 20+7\ne 27+2\na 29+3\n",
    )
}

#[test]
fn white_may_begin(rt: HostRuntime) -> Result<(), Fail> {
    let layout = layout_of(&rt, rt.alloc(), TWO_BY_TWO, Side::White, 2)?;
    assert_layout(
        &rt,
        rt.alloc(),
        &layout,
        "white 1+2 3+2\nblack 5+0 5+2\n",
        " 7+1 8+2 10+1 11+2 13+0 13+0 13+0 13+0 13+0 13+2",
        "e 1+2\na 3+2\ne 5+2\ne 7+6\na 13+0\ne 13+0\na 13+2\n",
    )
}
