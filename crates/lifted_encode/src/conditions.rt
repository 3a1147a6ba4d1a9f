// The conditions of the encoding, as wires.
ghost use Rattle.std.specs.Prelude.{◌≡◌, ◌+◌, ◌*◌, ◌≤◌, nat_le, ◌&&◌, All, length};
ghost use Rattle.std.specs.List.{sum_by};
ghost use Rattle.bddl_model.specs.Board.{Board as Marks};
ghost use Rattle.bddl_model.specs.Growth.{HasRoom, Makes};
ghost use Rattle.bddl_model.specs.Layout.{anchor_bits};
ghost use Rattle.bddl_model.specs.Words.{AreWires, word_value};
ghost use Rattle.symbol_cell.specs.Runs.{Stands, place_named};
ghost use Rattle.symbol_cell.specs.Steps.{unit};
ghost use Rattle.lifted_encode.specs.Joined as joined;
ghost use Rattle.lifted_encode.specs.Telling as telling;
ghost use Rattle.lifted_encode.specs.Telling.{IsPlyOf, IsLaidFor, marks_of, own_parts};
ghost use Rattle.lifted_encode.specs.Joined.{goal_parts, claim_parts, attack_parts, outcome_parts, condition_parts};

use crate::asked::Asked;
use crate::choice::line_meets;
use crate::moments::mark_at;
use crate::plies::{one_refused, plies_pass};
use bddl_model::{NoMemory, PlyBits, Side, Wire};
use bit_arith::{at_most, choose, less, or};
use circuit_dag::Dag;
use grid_game::Game;
use move_code::Layout;
use std::alloc::Global;
use symbol_cell::{SymbolRun, input_word};

// A wire that holds where a goal of Black that the inputs name stands at the time, if it is within the
// depth.
fn goal_claimed(
    alloc: Global,
    dag: &mut Dag,
    game: &Game,
    depth: u32,
    layout: &Layout,
    time: &[Wire],
    run: &SymbolRun,
) -> Result<Wire, NoMemory>
    requires depth { depth ≤ 31 }
    requires laid { IsLaidFor game.now depth dag.old layout.now }
    requires count { length run.now.plies ≡ depth }
    requires time { AreWires dag.old time.now }
    requires short { length time.now ≤ 16 }
    requires run { (board : Marks) × Stands run.now dag.old game.now board }
    requires room { HasRoom dag.old (unit (anchor_bits game.now) * goal_parts game.now depth) }
    ensures { Makes (unit (anchor_bits game.now) * goal_parts game.now depth) dag.old dag.new result (λ a.
        joined.goal_claimed game.now depth layout.now a (word_value dag.old time.now a) (place_named game.now dag.old a run.now.place) (marks_of dag.old run.now a)) }
{
    let mark = mark_at(dag, game, time, depth + 1, run)?;
    let (line, anchor) = (layout.line, layout.anchor);
    let (asked, place) = (Asked::AllPass, run.place());
    line_meets(
        alloc,
        dag,
        game,
        Side::Black,
        line,
        anchor,
        asked,
        place,
        mark,
    )
}

// A wire that holds where the claim does: that a code was illegal, or that a goal of Black stands.
fn claim_holds(
    alloc: Global,
    dag: &mut Dag,
    game: &Game,
    depth: u32,
    layout: &Layout,
    time: &[Wire],
    run: &SymbolRun,
) -> Result<Wire, NoMemory>
    requires depth { depth ≤ 31 }
    requires laid { IsLaidFor game.now depth dag.old layout.now }
    requires count { length run.now.plies ≡ depth }
    requires time { AreWires dag.old time.now }
    requires short { length time.now ≤ 16 }
    requires run { (board : Marks) × Stands run.now dag.old game.now board }
    requires room { HasRoom dag.old (unit (anchor_bits game.now) * claim_parts game.now depth layout.now.plies + 3) }
    ensures { Makes (unit (anchor_bits game.now) * claim_parts game.now depth layout.now.plies + 3) dag.old dag.new result (λ a.
        joined.claim_holds game.now depth layout.now a (word_value dag.old time.now a) (place_named game.now dag.old a run.now.place) (marks_of dag.old run.now a)) }
{
    let test = input_word(alloc, dag, layout.atom)?;
    let illegal = one_refused(alloc, dag, game, &layout.plies, time, &test, run)?;
    let goal = goal_claimed(alloc, dag, game, depth, layout, time, run)?;
    let kind = dag.input(layout.kind.from);
    choose(dag, kind, illegal, goal)
}

// A wire that holds where a goal of White that the inputs name stands at a time within the depth,
// unless the test that Black names fails.
fn attack_stands(
    alloc: Global,
    dag: &mut Dag,
    game: &Game,
    depth: u32,
    layout: &Layout,
    time: &[Wire],
    run: &SymbolRun,
) -> Result<Wire, NoMemory>
    requires depth { depth ≤ 31 }
    requires lines { 1 ≤ length game.now.white_lines }
    requires laid { IsLaidFor game.now depth dag.old layout.now }
    requires count { length run.now.plies ≡ depth }
    requires time { AreWires dag.old time.now }
    requires short { length time.now ≤ 16 }
    requires run { (board : Marks) × Stands run.now dag.old game.now board }
    requires room { HasRoom dag.old (unit (anchor_bits game.now) * attack_parts game.now depth) }
    ensures { Makes (unit (anchor_bits game.now) * attack_parts game.now depth) dag.old dag.new result (λ a.
        joined.attack_stands game.now depth layout.now a (word_value dag.old time.now a) (place_named game.now dag.old a run.now.place) (marks_of dag.old run.now a)) }
{
    let test = input_word(alloc, dag, layout.refuting)?;
    let mark = mark_at(dag, game, time, depth, run)?;
    let (line, anchor) = (layout.white_line, layout.white_anchor);
    let (asked, place) = (Asked::Unrefuted(&test), run.place());
    line_meets(
        alloc,
        dag,
        game,
        Side::White,
        line,
        anchor,
        asked,
        place,
        mark,
    )
}

// A wire that holds where no goal of White stands before the claim's time that the inputs name.
fn is_answered(
    alloc: Global,
    dag: &mut Dag,
    game: &Game,
    depth: u32,
    layout: &Layout,
    time: &[Wire],
    run: &SymbolRun,
) -> Result<Wire, NoMemory>
    requires depth { depth ≤ 31 }
    requires laid { IsLaidFor game.now depth dag.old layout.now }
    requires count { length run.now.plies ≡ depth }
    requires time { AreWires dag.old time.now }
    requires time_bits { length time.now ≡ layout.now.time.len }
    requires run { (board : Marks) × Stands run.now dag.old game.now board }
    requires room { HasRoom dag.old (unit (anchor_bits game.now) * attack_parts game.now depth + 65) }
    ensures { Makes (unit (anchor_bits game.now) * attack_parts game.now depth + 65) dag.old dag.new result (λ a.
        joined.is_answered game.now depth layout.now a (word_value dag.old time.now a) (place_named game.now dag.old a run.now.place) (marks_of dag.old run.now a)) }
{
    if game.lines(Side::White) == 0 {
        return Ok(dag.truth());
    }
    let attack = input_word(alloc, dag, layout.white_time)?;
    let stands = attack_stands(alloc, dag, game, depth, layout, &attack, run)?;
    let earlier = less(dag, &attack, time)?;
    let (refuted, later) = (dag.not(stands), dag.not(earlier));
    or(dag, refuted, later)
}

// A wire that holds where the claim does and no goal of White that the inputs name stands before it.
fn outcome_holds(
    alloc: Global,
    dag: &mut Dag,
    game: &Game,
    depth: u32,
    layout: &Layout,
    time: &[Wire],
    run: &SymbolRun,
) -> Result<Wire, NoMemory>
    requires depth { depth ≤ 31 }
    requires laid { IsLaidFor game.now depth dag.old layout.now }
    requires count { length run.now.plies ≡ depth }
    requires time { AreWires dag.old time.now }
    requires time_bits { length time.now ≡ layout.now.time.len }
    requires run { (board : Marks) × Stands run.now dag.old game.now board }
    requires room { HasRoom dag.old (unit (anchor_bits game.now) * outcome_parts game.now depth layout.now.plies + 69) }
    ensures { Makes (unit (anchor_bits game.now) * outcome_parts game.now depth layout.now.plies + 69) dag.old dag.new result (λ a.
        joined.outcome_holds game.now depth layout.now a (word_value dag.old time.now a) (place_named game.now dag.old a run.now.place) (marks_of dag.old run.now a)) }
{
    let claimed = claim_holds(alloc, dag, game, depth, layout, time, run)?;
    let answered = is_answered(alloc, dag, game, depth, layout, time, run)?;
    dag.and(claimed, answered)
}

// A wire that holds where the time is within the depth and each ply before it passes.
fn is_played(
    alloc: Global,
    dag: &mut Dag,
    game: &Game,
    depth: u32,
    plies: &[PlyBits],
    time: &[Wire],
    run: &SymbolRun,
) -> Result<Wire, NoMemory>
    requires depth { length plies.now ≡ depth }
    requires few { depth ≤ 31 }
    requires plies { All (IsPlyOf game.now dag.old) plies.now }
    requires count { length run.now.plies ≡ depth }
    requires time { AreWires dag.old time.now }
    requires short { length time.now ≤ 16 }
    requires run { (board : Marks) × Stands run.now dag.old game.now board }
    requires room { HasRoom dag.old (unit (anchor_bits game.now) * sum_by (own_parts game.now) plies.now + 17) }
    ensures { Makes (unit (anchor_bits game.now) * sum_by (own_parts game.now) plies.now + 17) dag.old dag.new result (λ a.
        nat_le (word_value dag.old time.now a) depth
        && telling.plies_pass game.now a (word_value dag.old time.now a) (place_named game.now dag.old a run.now.place) (marks_of dag.old run.now a) 0 plies.now) }
{
    let in_time = at_most(dag, time, depth)?;
    let passed = plies_pass(alloc, dag, game, plies, time, run)?;
    dag.and(in_time, passed)
}

/// A wire that holds where all conditions of the encoding do.
pub fn conditions(
    alloc: Global,
    dag: &mut Dag,
    game: &Game,
    depth: u32,
    layout: &Layout,
    run: &SymbolRun,
) -> Result<Wire, NoMemory>
    requires depth { depth ≤ 31 }
    requires laid { IsLaidFor game.now depth dag.old layout.now }
    requires count { length run.now.plies ≡ depth }
    requires run { (board : Marks) × Stands run.now dag.old game.now board }
    requires room { HasRoom dag.old (unit (anchor_bits game.now) * condition_parts game.now depth layout.now.plies) }
    ensures { Makes (unit (anchor_bits game.now) * condition_parts game.now depth layout.now.plies) dag.old dag.new result (λ a.
        joined.conditions game.now depth layout.now a (place_named game.now dag.old a run.now.place) (marks_of dag.old run.now a)) }
{
    let time = input_word(alloc, dag, layout.time)?;
    let played = is_played(alloc, dag, game, depth, &layout.plies, &time, run)?;
    let outcome = outcome_holds(alloc, dag, game, depth, layout, &time, run)?;
    dag.and(played, outcome)
}
