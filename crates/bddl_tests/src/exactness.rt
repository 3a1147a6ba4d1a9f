// Small games of all kinds, whose formulas say of each position what can be forced from there.

use crate::domains::{ADVANCE, NONE, OCCUPY};
use crate::positions::assert_exact;
use std::alloc::Global;
use std::process::Abort;
use std::test::Fail;

// Games of one domain.
fn assert_all_exact(
    rt: &impl Abort,
    alloc: Global,
    domain: &str,
    problems: &[&str],
) -> Result<(), Fail> {
    for problem in problems {
        assert_exact(rt, alloc, domain, problem)?;
    }
    Ok(())
}

#[test]
fn positions_where_stones_are_put(rt: HostRuntime) -> Result<(), Fail> {
    let problems = [
        "#boardsize 2 1 #init () #depth 3 #blackgoals (black(?x,?y) black(?x+1,?y)) #whitegoals",
        "#boardsize 2 2 #init () #depth 3 #blackgoals (black(?x,?y) black(?x+1,?y)) (black(?x,?y) black(?x,?y+1)) #whitegoals",
        "#boardsize 3 1 #init () #depth 3 #blackgoals (black(?x,?y) black(?x+1,?y)) #whitegoals",
        "#boardsize 2 2 #init (black(1,1)) #depth 2 #blackgoals (NOT(white(?x,?y)) NOT(open(?x,?y)) black(?x,?y+1)) #whitegoals",
        "#boardsize 2 1 #init () #depth 2 #blackgoals #whitegoals",
        "#boardsize 1 1 #init () #depth 31 #blackgoals (white(1,1)) #whitegoals",
    ];
    assert_all_exact(&rt, rt.alloc(), OCCUPY, &problems)
}

#[test]
fn positions_where_white_has_a_goal(rt: HostRuntime) -> Result<(), Fail> {
    let problems = [
        "#boardsize 2 1 #init () #depth 3 #blackgoals (black(?x,?y) black(?x+1,?y)) #whitegoals (white(?x,?y))",
        "#boardsize 3 1 #init () #depth 3 #blackgoals (black(?x,?y) black(?x+1,?y)) #whitegoals (white(1,1))",
        "#boardsize 2 2 #init (black(1,1) white(2,2)) #depth 2 #blackgoals (black(?x,?y) black(?x+1,?y)) #whitegoals (white(?x,?y) white(?x,?y-1))",
        "#boardsize 2 1 #init () #depth 2 #blackgoals (black(1,1) white(2,1)) (black(1,1) black(2,1)) (black(2,1) white(1,1)) #whitegoals (white(1,1)) (open(?x,?y) white(?x-1,?y)) (NOT(open(?x,?y)) white(?x+1,?y))",
        "#boardsize 2 1 #init () #depth 2 #blackgoals (black(?x,?y)) #whitegoals ()",
        "#boardsize 2 1 #init () #depth 2 #blackgoals () #whitegoals ()",
        "#boardsize 2 1 #init (white(1,1)) #depth 2 #blackgoals (black(2,1)) #whitegoals (white(1,1))",
    ];
    assert_all_exact(&rt, rt.alloc(), OCCUPY, &problems)
}

#[test]
fn positions_where_white_is_first(rt: HostRuntime) -> Result<(), Fail> {
    let problems = [
        "#boardsize 2 1 #init () #depth 2 #first white #blackgoals (black(?x,?y)) #whitegoals",
        "#boardsize 1 1 #init () #depth 2 #first white #blackgoals (black(?x,?y)) #whitegoals",
        "#boardsize 2 1 #init () #depth 4 #first white #blackgoals (black(xmax,1)) #whitegoals (white(xmax,1))",
        "#boardsize 3 1 #init () #depth 2 #first white #blackgoals (black(?x,?y) NOT(white(?x+1,?y))) #whitegoals",
        "#boardsize 2 1 #init (white(1,1)) #depth 3 #first white #blackgoals (black(2,1)) #whitegoals (white(1,1))",
        "#boardsize 2 2 #init (black(1,2) black(2,1)) #depth 2 #first white #blackgoals (black(?x,?y) black(?x+1,?y+1)) (black(?x,?y) black(?x+1,?y)) (black(?x,?y) black(?x,?y-1)) #whitegoals",
    ];
    assert_all_exact(&rt, rt.alloc(), OCCUPY, &problems)
}

#[test]
fn positions_where_a_side_is_stuck(rt: HostRuntime) -> Result<(), Fail> {
    let full = [
        "#boardsize 2 1 #init (black(1,1) white(2,1)) #depth 2 #blackgoals (open(?x,?y)) #whitegoals",
        "#boardsize 2 1 #init (black(1,1) white(2,1)) #depth 3 #first white #blackgoals (open(?x,?y)) #whitegoals (white(xmax,1))",
        "#boardsize 2 1 #init (black(1,1)) #depth 3 #blackgoals (white(?x,?y)) #whitegoals",
    ];
    assert_all_exact(&rt, rt.alloc(), OCCUPY, &full)?;
    assert_all_exact(&rt, rt.alloc(), NONE, &full)?;
    let white =
        "#blackactions #whiteactions :action occupy :parameters (?x,?y) :precondition (open(?x,?y)) :effect (white(?x,?y))";
    let problems = [
        "#boardsize 2 1 #init () #depth 2 #blackgoals (white(?x,?y)) #whitegoals",
        "#boardsize 2 1 #init () #depth 2 #first white #blackgoals (white(?x,?y)) #whitegoals",
        "#boardsize 2 1 #init () #depth 3 #first white #blackgoals (white(1,1)) #whitegoals (white(2,1))",
    ];
    assert_all_exact(&rt, rt.alloc(), white, &problems)?;
    let black =
        "#blackactions :action occupy :parameters (?x,?y) :precondition (open(?x,?y)) :effect (black(?x,?y)) #whiteactions";
    let problems = [
        "#boardsize 2 1 #init () #depth 3 #blackgoals (black(?x,?y) black(?x+1,?y)) #whitegoals",
        "#boardsize 2 1 #init () #depth 3 #blackgoals (black(?x,?y) open(?x+1,?y)) #whitegoals (black(1,1))",
        "#boardsize 2 1 #init () #depth 2 #first white #blackgoals (black(?x,?y)) #whitegoals (black(1,1))",
    ];
    assert_all_exact(&rt, rt.alloc(), black, &problems)
}

// A stone of each colour at once, and a side's own stone turned by the other.
#[test]
fn positions_where_effects_have_the_other_colour(rt: HostRuntime) -> Result<(), Fail> {
    let both =
        "#blackactions :action pair :parameters (?x,?y) :precondition (open(?x,?y)) :effect (black(?x,?y) white(?x+1,?y))
#whiteactions :action help :parameters (?x,?y) :precondition (open(?x,?y)) :effect (black(?x,?y))";
    let problems = [
        "#boardsize 2 1 #init () #depth 2 #blackgoals (black(?x,?y) white(?x+1,?y)) #whitegoals (white(?x,?y))",
        "#boardsize 2 1 #init () #depth 2 #first white #blackgoals (black(?x,?y) white(?x+1,?y)) #whitegoals (white(2,1) black(1,1))",
        "#boardsize 3 1 #init () #depth 3 #blackgoals (black(?x,?y) black(?x+1,?y)) #whitegoals",
        "#boardsize 3 1 #init () #depth 2 #blackgoals (black(?x,?y) black(?x-1,?y)) #whitegoals (white(3,1))",
    ];
    assert_all_exact(&rt, rt.alloc(), both, &problems)?;
    let turn =
        "#blackactions :action turn :parameters (?x,?y) :precondition (white(?x,?y)) :effect (black(?x,?y))
#whiteactions :action turn :parameters (?x,?y) :precondition (black(?x,?y) NOT(open(?x+1,?y))) :effect (open(?x,?y) white(?x,?y) open(?x+1,?y))";
    let problems = [
        "#boardsize 2 1 #init (white(1,1) white(2,1)) #depth 3 #blackgoals (black(?x,?y) black(?x+1,?y)) #whitegoals",
        "#boardsize 3 1 #init (white(1,1) black(2,1) white(3,1)) #depth 3 #blackgoals (black(?x,?y) black(?x+1,?y) black(?x+2,?y)) #whitegoals (open(3,1))",
        "#boardsize 2 2 #init (white(1,1) white(1,2) black(2,2)) #depth 2 #blackgoals (white(?x,?y) open(?x+1,?y)) #whitegoals",
    ];
    assert_all_exact(&rt, rt.alloc(), turn, &problems)
}

// Anchors that do not fit, fixed cells, negated tests, and actions without preconditions or effects.
#[test]
fn positions_where_few_anchors_fit(rt: HostRuntime) -> Result<(), Fail> {
    let beside =
        "#blackactions :action beside :parameters (?x,?y) :precondition (open(?x+1,?y) NOT(black(?x,?y))) :effect (black(?x+1,?y))
#whiteactions :action beside :parameters (?x,?y) :precondition (NOT(black(?x-1,?y))) :effect (white(?x-1,?y))";
    let problems = [
        "#boardsize 3 1 #init () #depth 3 #blackgoals (black(?x,?y) NOT(white(?x-1,?y)) NOT(open(?x-1,?y))) #whitegoals",
        "#boardsize 3 1 #init () #depth 2 #blackgoals (black(?x,?y) NOT(white(?x-1,?y))) #whitegoals (NOT(open(?x,?y)) NOT(black(?x,?y)))",
        "#boardsize 2 1 #init (white(2,1)) #depth 4 #first white #blackgoals (black(xmax,ymin)) #whitegoals (white(?x,?y) white(?x+1,?y))",
    ];
    assert_all_exact(&rt, rt.alloc(), beside, &problems)?;
    let fixed =
        "#blackactions :action pass :parameters (?x,?y) :precondition () :effect () :action corner :parameters (?x,?y) :precondition (open(xmax,ymax)) :effect (black(xmax,ymax) white(?x,ymin))
#whiteactions :action put :parameters (?x,?y) :precondition () :effect (white(?x,?y)) :action take :parameters (?x,?y) :precondition (NOT(open(xmin,?y)) white(?x,?y) NOT(white(xmax,?y))) :effect (open(xmax,ymin) open(?x,?y))";
    let problems = [
        "#boardsize 2 1 #init () #depth 2 #blackgoals (black(xmax,?y)) #whitegoals (white(xmax,?y))",
        "#boardsize 2 1 #init (black(2,1)) #depth 2 #first white #blackgoals (white(xmin,ymax)) #whitegoals",
        "#boardsize 1 2 #init () #depth 2 #blackgoals (black(1,ymax) NOT(open(1,ymin))) #whitegoals (white(xmax,2))",
        "#boardsize 2 1 #init (black(1,1)) #depth 3 #blackgoals (open(?x,?y) open(?x+1,?y)) #whitegoals",
    ];
    assert_all_exact(&rt, rt.alloc(), fixed, &problems)
}

// A stone stands on another one or on the last row, and a side has two or three actions.
#[test]
fn positions_where_a_side_has_several_actions(rt: HostRuntime) -> Result<(), Fail> {
    let drop =
        "#blackactions :action stack :parameters (?x,?y) :precondition (open(?x,?y) NOT(open(?x,?y+1))) :effect (black(?x,?y)) :action drop :parameters (?x,?y) :precondition (open(?x,?y) open(?x,?y-1)) :effect (black(?x,?y))
#whiteactions :action stack :parameters (?x,?y) :precondition (open(?x,?y) NOT(open(?x,?y+1))) :effect (white(?x,?y)) :action drop :parameters (?x,?y) :precondition (open(?x,?y) open(?x,?y-1)) :effect (white(?x,?y))";
    let problems = [
        "#boardsize 1 2 #init () #depth 3 #blackgoals (NOT(white(?x,?y)) NOT(open(?x,?y)) black(?x,?y+1)) #whitegoals",
        "#boardsize 1 2 #init () #depth 2 #blackgoals (white(?x,?y) black(?x,?y+1)) #whitegoals (white(?x,?y) NOT(open(?x,?y+1)))",
        "#boardsize 2 2 #init () #depth 2 #first white #blackgoals (black(?x,ymin)) (black(?x,ymax) white(?x+1,ymax)) #whitegoals",
    ];
    assert_all_exact(&rt, rt.alloc(), drop, &problems)?;
    let problems = [
        "#boardsize 2 4 #init (black(1,3) white(2,2)) #depth 1 #blackgoals (black(?x,ymax)) #whitegoals (white(?x,ymin))",
        "#boardsize 2 3 #init (black(1,1) white(2,3)) #depth 1 #first white #blackgoals (black(?x,1) white(?x,2)) (black(?x,1) white(?x+1,2)) #whitegoals",
        "#boardsize 2 2 #init (black(1,1) white(2,2)) #depth 2 #blackgoals (white(?x,ymin)) #whitegoals",
    ];
    assert_all_exact(&rt, rt.alloc(), ADVANCE, &problems)
}
