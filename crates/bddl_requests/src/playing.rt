// The request `play`.
ghost use Rattle.std.specs.Prelude.{◌≡◌, ◌≤◌, ◌<◌, ◌⊎◌, ℕ, List, Some, IfOk, IsTrue, true, length, vec_len, [], ◌∷◌};
ghost use Rattle.bddl_model.specs.Outcome.{GameThen, AcceptedThen, PlayEnds};
ghost use Rattle.io_edge.specs.Outside.{Counts};
ghost use Rattle.request_parts.specs.Ends.{Writes, content_told, is_write_fault};
ghost use Rattle.bddl_model.specs.declared.command.Command.TheVariants.{Play};
ghost use Rattle.bddl_requests.specs.Opponents.{AreReplies, Begins, ChangesOnly, CountsAt, GoesThrough, IsSteadyAt, is_missed, is_refused};

use bddl_laws::plays_reach_the_goal;
use game_play::{Opponent, Played};
use io_edge::Sink;
use request_parts::{Close, Content, Stop, read_accepted, read_game};
use std::alloc::Global;

// Plays the game of two texts under the certificate of a third one, against this opponent.
fn play<K: Sink>(
    alloc: Global,
    domain: &[u8],
    problem: &[u8],
    certificate: &[u8],
    opponent: &mut Box<dyn Opponent>,
    number: u64,
    out: &mut K,
) -> Result<Close, Stop<Content>>
    requires domain_short { length domain.now ≤ 1048576 }
    requires problem_short { length problem.now ≤ 1048576 }
    ensures written { (replies : List ℕ) → (said opponent.new ≡ replies) ⊎ (left opponent.old ≡ Some replies)
        → Writes content_told (GameThen domain.now problem.now (AcceptedThen certificate.now (PlayEnds replies))) (K.written out.old) (K.written out.new) result }
    ensures refused { is_refused result ≡ true → (K.written out.new ≡ K.written out.old) × (opponent.new ≡ opponent.old) }
    ensures began { IfOk result (λ _. began opponent.new ≡ number) }
    ensures missed { Counts (count opponent.old) (count opponent.new) (is_missed result) }
    ensures steady { IsTrue (steady opponent.old) → IfOk result GoesThrough }
    ensures cause { Counts (K.faults out.old) (K.faults out.new) (is_write_fault result) }
{
    let setup = read_game(alloc, domain, problem)?;
    let nodes = read_accepted(alloc, &setup, certificate)?;
    plays_reach_the_goal();
    match game_play::play(alloc, &setup, nodes.as_slice(), opponent, number, out)? {
        Played::Reached { .. } => Ok(Close::Done),
        Played::Gone => Ok(Close::Gone),
        Played::BadReply { number, count } => Ok(Close::BadReply { number, count }),
        Played::WriteFault => Err(Stop::WriteFault),
    }
}

/// Plays the game of two texts under the certificate of a third one, against the opponent of this
/// number.
pub fn play_at<K: Sink>(
    alloc: Global,
    domain: &[u8],
    problem: &[u8],
    certificate: &[u8],
    opponents: &mut Vec<Box<dyn Opponent>>,
    who: u64,
    number: u64,
    out: &mut K,
) -> Result<Close, Stop<Content>>
    requires domain_short { length domain.now ≤ 1048576 }
    requires problem_short { length problem.now ≤ 1048576 }
    requires seat { who < vec_len opponents.old }
    ensures written { (replies : List ℕ) → AreReplies (λ o. said o) (λ o. left o) (Some who) opponents.old.items opponents.new.items replies
        → Writes content_told (GameThen domain.now problem.now (AcceptedThen certificate.now (PlayEnds replies))) (K.written out.old) (K.written out.new) result }
    ensures others { ChangesOnly (Some who) opponents.old.items opponents.new.items }
    ensures seats { vec_len opponents.new ≡ vec_len opponents.old }
    ensures refused { is_refused result ≡ true → (K.written out.new ≡ K.written out.old) × (opponents.new.items ≡ opponents.old.items) }
    ensures began { IfOk result (λ _. Begins (λ o. began o) Play (who ∷ number ∷ []) opponents.new.items) }
    ensures missed { CountsAt (λ o. count o) (Some who) opponents.old.items opponents.new.items (is_missed result) }
    ensures steady { IsSteadyAt (λ o. steady o) (Some who) opponents.old.items → IfOk result GoesThrough }
    ensures cause { Counts (K.faults out.old) (K.faults out.new) (is_write_fault result) }
{
    play(
        alloc,
        domain,
        problem,
        certificate,
        &mut opponents[who as usize],
        number,
        out,
    )
}
