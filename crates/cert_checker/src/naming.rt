// What the answers of a node tell of the nodes that they name.
ghost use Rattle.std.specs.Prelude.{◌≡◌, ◌<◌, ◌≤◌, ◌-◌, ◌&&◌, ◌==◌, suc, All, length};
ghost use Rattle.bddl_model.specs.Certificate.{behind, same_side, same_place};
ghost use Rattle.cert_checker.specs.Benches.{IsBench};
ghost use Rattle.cert_checker.specs.Checking.{after_naming, with_answer, with_answers, IsAnswer};
ghost use Rattle.cert_checker.specs.Places.{known_at, place_at, place_in, IsTable, IsNamedBelow, MayMove};

use crate::bench::Bench;
use crate::known::Known;
use crate::places::go_to;
use crate::turn::Turn;
use bddl_model::Answered;
use grid_game::apply;
use offset_check::Setup;

// Whether an answer of the node here leads to where the node that it names is known to stand.
fn leads_there(
    setup: &Setup,
    table: &[Known],
    turn: Turn,
    bench: &mut Bench,
    answer: Answered,
) -> bool
    requires table { IsTable setup.now table.now }
    requires inside { answer.next.0 < length table.now }
    requires bench { IsBench setup.now.game bench.old }
    requires may { MayMove setup.now.game (place_at turn bench.old.here.marks) answer.mv }
    ensures same { result ≡ same_place (behind setup.now.game (place_at turn bench.old.here.marks) answer.mv) (place_in setup.now table.now answer.next.0) }
    ensures here { bench.new.here ≡ bench.old.here }
    ensures bench { IsBench setup.now.game bench.new }
{
    bench.behind.copy_from(&bench.here);
    apply(&setup.game, &mut bench.behind, turn.side, answer.mv);
    let known = go_to(setup, table, answer.next.0 as usize, &mut bench.known);
    turn.after_move() == known && bench.behind.same_marks(&bench.known)
}

// What is known of the named node after this answer.
fn after_naming(
    setup: &Setup,
    table: &[Known],
    node: u64,
    turn: Turn,
    bench: &mut Bench,
    answer: Answered,
) -> Known
    requires table { IsTable setup.now table.now }
    requires inside { answer.next.0 < length table.now }
    requires bench { IsBench setup.now.game bench.old }
    requires may { MayMove setup.now.game (place_at turn bench.old.here.marks) answer.mv }
    ensures known { result ≡ after_naming setup.now table.now node (behind setup.now.game (place_at turn bench.old.here.marks) answer.mv) answer (known_at table.now answer.next.0) }
    ensures here { bench.new.here ≡ bench.old.here }
    ensures bench { IsBench setup.now.game bench.new }
{
    match table[answer.next.0 as usize] {
        Known::Unnamed => Known::First {
            from: node,
            mv: answer.mv,
        },
        Known::First { from, mv } => {
            if leads_there(setup, table, turn, bench, answer) {
                Known::First { from, mv }
            } else {
                Known::Two
            }
        }
        Known::Two => Known::Two,
    }
}

fn name_one(
    setup: &Setup,
    table: &mut [Known],
    node: u64,
    turn: Turn,
    bench: &mut Bench,
    answer: Answered,
)
    requires table { IsTable setup.now table.old }
    requires named { IsNamedBelow (suc node) table.old }
    requires place { place_at turn bench.old.here.marks ≡ place_in setup.now table.old node }
    requires bench { IsBench setup.now.game bench.old }
    requires answer { IsAnswer setup.now (length table.old) node (place_at turn bench.old.here.marks) answer }
    ensures entry { table.new ≡ with_answer setup.now node (place_at turn bench.old.here.marks) answer table.old }
    ensures len { length table.new ≡ length table.old }
    ensures table { IsTable setup.now table.new }
    ensures named { IsNamedBelow (suc node) table.new }
    ensures place { place_in setup.now table.new node ≡ place_in setup.now table.old node }
    ensures here { bench.new.here ≡ bench.old.here }
    ensures bench { IsBench setup.now.game bench.new }
{
    let known = after_naming(setup, table, node, turn, bench, answer);
    table[answer.next.0 as usize] = known;
}

/// Names the nodes that the answers of the node here lead to.
pub fn name_answers(
    setup: &Setup,
    table: &mut [Known],
    node: u64,
    turn: Turn,
    bench: &mut Bench,
    answers: &[Answered],
)
    requires table { IsTable setup.now table.old }
    requires named { IsNamedBelow (suc node) table.old }
    requires place { place_at turn bench.old.here.marks ≡ place_in setup.now table.old node }
    requires bench { IsBench setup.now.game bench.old }
    requires answers { All (IsAnswer setup.now (length table.old) node (place_at turn bench.old.here.marks)) answers.now }
    ensures entries { table.new ≡ with_answers setup.now node (place_at turn bench.old.here.marks) answers.now table.old }
    ensures len { length table.new ≡ length table.old }
    ensures table { IsTable setup.now table.new }
    ensures named { IsNamedBelow (suc node) table.new }
    ensures bench { IsBench setup.now.game bench.new }
{
    for answer in answers {
        name_one(setup, table, node, turn, bench, *answer);
    }
}
