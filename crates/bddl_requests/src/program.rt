// The top call.
ghost use Rattle.std.specs.Prelude.{◌≡◌, ◌≢◌, ◌==◌, ◌<◌, ◌⊎◌, ℕ, Bool, List, None, true, false, length, map, vec_len, IfOk, string_bytes};
ghost use Rattle.bddl_model.specs.Outcome.{ContentEnds, End, IsResult, MayEnd, is_carried_out};
ghost use Rattle.bddl_model.specs.Request as spec;
ghost use Rattle.bddl_model.specs.Request.{request_of, opponent_of};
ghost use Rattle.bddl_requests.specs.Opponents.{AreReplies, Begins, ChangesOnly, CountsAt, GoesThrough, HasBegun, IsCounted, IsSteadyAt, Rises, is_missed, is_refused};
ghost use Rattle.io_edge.specs.Outside.{Counts, Rose, with_bytes};
ghost use Rattle.request_parts.specs.Ends.{Answers, AreWithin, NotCut, Tells, Writes, content_told, is_read_fault, is_write_fault, refusal_told};

use crate::certify::certify;
use crate::check::check;
use crate::compile::compile;
use crate::playing::play_at;
use crate::recertify::recertify;
use crate::solve::solve;
use crate::solve_formula::solve_formula;
use crate::trial::trial;
use bddl_model::Command;
use game_play::Opponent;
use io_edge::{Shelf, Sink, SinkEnd, put_text};
use qbf_search::Decider;
use request_parts::{
    Close, Content, Refusal, Request, Stop, format_domain, format_problem, help, limits_of,
    note_of, read_files, read_request, status_of, version,
};
use std::alloc::{AllocError, Global};

/// Carries out the request of the words, and answers the exit status: 0 where it was carried out and
/// had nothing to decide, or was a trial; 10, 20 and 30 where the game or the formula was decided in
/// favour of Black, or against it, or its steps were spent; 7 and 8 where a play ended for want of a
/// reply, or with a reply that is none of the moves shown; 6 where a certificate is refused, 1 where the
/// words are no request, 2 where a file is refused, 3 where a named file could not be read, 4 where a
/// write failed, 5 where memory ran out. A trial whose steps were spent ends with 30 too.
///
/// A play is against the opponent of the number that it names, counted from 0. It changes that
/// opponent in its place. The decider chooses what a search tries first; what is found doesn't depend
/// on it.
pub fn run<S: Shelf, K: Sink, N: Sink>(
    alloc: Global,
    words: &[Vec<u8>],
    shelf: &mut S,
    out: &mut K,
    note: &mut N,
    opponents: &mut Vec<Box<dyn Opponent>>,
    decider: &mut Box<dyn Decider>,
) -> u8
    // The call ends as the words, the files and White's replies say, or is cut short. Where no files are told, there are some of which it is so.
    // The replies are what the opponent had answered when the call ended; where it told before what it would answer, they are that too.
    ensures ends { (replies : List ℕ) → AreReplies (λ o. said o) (λ o. left o) (opponent_of (request_of (vec_len opponents.old) (map (λ w. w.items) words.now))) opponents.old.items opponents.new.items replies
        → Answers (MayEnd true (S.held shelf.old) (request_of (vec_len opponents.old) (map (λ w. w.items) words.now)) replies)
        (K.written out.old) (K.written out.new) (N.written note.old) (N.written note.new) result }

    // From a calm shelf each file that is held can be read.
    ensures calm { (replies : List ℕ) → AreReplies (λ o. said o) (λ o. left o) (opponent_of (request_of (vec_len opponents.old) (map (λ w. w.items) words.now))) opponents.old.items opponents.new.items replies
        → S.calm shelf.old → Answers (MayEnd false (S.held shelf.old) (request_of (vec_len opponents.old) (map (λ w. w.items) words.now)) replies)
        (K.written out.old) (K.written out.new) (N.written note.old) (N.written note.new) result }

    // With 0, 7, 8, 10, 20 and 30 the status, the whole of out and the note are the result of what stands in the files.
    // `compile` writes the text of a form that encodes the game of the two files, and this form alone is read from the text: its
    // value is that of winning. `solve` and `qsolve` tell that value, or that the steps are spent, which are then below the bound.
    // `certify` writes a valid certificate of the game, in its shared form, or notes that Black doesn't win or that the steps are
    // spent. `check` accepts valid certificates alone, and Black wins where there is one. `play` under a valid certificate writes
    // the transcript that White's replies decide: it reaches Black's goal within the depth against replies that were shown. `trial`
    // tells of the two games of its number whether Black wins the small one, or that the steps are spent, which are then below its bound.
    ensures carried_out { (replies : List ℕ) → AreReplies (λ o. said o) (λ o. left o) (opponent_of (request_of (vec_len opponents.old) (map (λ w. w.items) words.now))) opponents.old.items opponents.new.items replies
        → is_carried_out result ≡ true → (end : End) × IsResult (S.held shelf.old) (request_of (vec_len opponents.old) (map (λ w. w.items) words.now)) replies end
        × (result ≡ end.status) × (K.written out.new ≡ with_bytes (K.written out.old) end.out) × (N.written note.new ≡ with_bytes (N.written note.old) end.note) }

    // 1 is for words that are no request.
    ensures words { result ≡ 1 → request_of (vec_len opponents.old) (map (λ w. w.items) words.now) ≡ None }
    ensures no_request { request_of (vec_len opponents.old) (map (λ w. w.items) words.now) ≡ None → (result ≡ 1) ⊎ (result ≡ 4) ⊎ (result ≡ 5) }

    // After 1, 2, 3 and 6 nothing was written to out, and the opponents are as they were.
    ensures refused { (result ≡ 1) ⊎ (result ≡ 2) ⊎ (result ≡ 3) ⊎ (result ≡ 6) → (K.written out.new ≡ K.written out.old) × (opponents.new.items ≡ opponents.old.items) }

    // Only the opponent that a play names is changed, and its play began with the number of the request.
    ensures seats { vec_len opponents.new ≡ vec_len opponents.old }
    ensures others { ChangesOnly (opponent_of (request_of (vec_len opponents.old) (map (λ w. w.items) words.now))) opponents.old.items opponents.new.items }
    ensures began { is_carried_out result ≡ true → HasBegun (λ o. began o) (request_of (vec_len opponents.old) (map (λ w. w.items) words.now)) opponents.new.items }

    // 7 is for an opponent that has no reply, which it counts. A steady one has one that was shown.
    ensures missed { result ≡ 7 → CountsAt (λ o. count o) (opponent_of (request_of (vec_len opponents.old) (map (λ w. w.items) words.now))) opponents.old.items opponents.new.items true }
    ensures missed_rose { Rises (λ o. count o) (opponent_of (request_of (vec_len opponents.old) (map (λ w. w.items) words.now))) opponents.old.items opponents.new.items
        → (result ≡ 7) ⊎ (result ≡ 4) ⊎ (result ≡ 5) }
    ensures steady { IsSteadyAt (λ o. steady o) (opponent_of (request_of (vec_len opponents.old) (map (λ w. w.items) words.now))) opponents.old.items
        → (result ≢ 7) × (result ≢ 8) }

    // 3 and 4 are for faults of the outside.
    ensures read_fault { result ≡ 3 → Rose (S.faults shelf.old) (S.faults shelf.new) }
    ensures read_rose { S.faults shelf.old < S.faults shelf.new → (result ≡ 3) ⊎ (result ≡ 4) ⊎ (result ≡ 5) }
    ensures write_fault { result ≡ 4 → Rose (K.faults out.old) (K.faults out.new) ⊎ Rose (N.faults note.old) (N.faults note.new) }
    ensures write_rose { (K.faults out.old < K.faults out.new) ⊎ (N.faults note.old < N.faults note.new) → result ≡ 4 }
{
    match carry_out(alloc, words, shelf, out, opponents, decider) {
        Ok(close) => tell(close.status(), close.note(alloc), note),
        Err(Stop::Refused(refusal)) => tell(status_of(refusal), note_of(alloc, refusal), note),
        Err(Stop::WriteFault) => 4,
        Err(Stop::NoMemory) => 5,
    }
}

fn carry_out<S: Shelf, K: Sink>(
    alloc: Global,
    words: &[Vec<u8>],
    shelf: &mut S,
    out: &mut K,
    opponents: &mut Vec<Box<dyn Opponent>>,
    decider: &mut Box<dyn Decider>,
) -> Result<Close, Stop<Refusal>>
    ensures written { (faulty : Bool) (replies : List ℕ) → (faulty ≡ false → S.calm shelf.old)
        → AreReplies (λ o. said o) (λ o. left o) (opponent_of (request_of (vec_len opponents.old) (map (λ w. w.items) words.now))) opponents.old.items opponents.new.items replies
        → Writes refusal_told (MayEnd faulty (S.held shelf.old) (request_of (vec_len opponents.old) (map (λ w. w.items) words.now)) replies) (K.written out.old) (K.written out.new) result }
    ensures words { result ≡ Err (Stop.Refused Refusal.NoRequest) → request_of (vec_len opponents.old) (map (λ w. w.items) words.now) ≡ None }
    ensures no_request { request_of (vec_len opponents.old) (map (λ w. w.items) words.now) ≡ None → (result ≡ Err (Stop.Refused Refusal.NoRequest)) ⊎ (result ≡ Err Stop.NoMemory) }
    ensures refused { is_refused result ≡ true → (K.written out.new ≡ K.written out.old) × (opponents.new.items ≡ opponents.old.items) }
    ensures seats { vec_len opponents.new ≡ vec_len opponents.old }
    ensures others { ChangesOnly (opponent_of (request_of (vec_len opponents.old) (map (λ w. w.items) words.now))) opponents.old.items opponents.new.items }
    ensures began { IfOk result (λ _. HasBegun (λ o. began o) (request_of (vec_len opponents.old) (map (λ w. w.items) words.now)) opponents.new.items) }
    ensures missed { IsCounted (λ o. count o) (opponent_of (request_of (vec_len opponents.old) (map (λ w. w.items) words.now))) opponents.old.items opponents.new.items (is_missed result) }
    ensures steady { IsSteadyAt (λ o. steady o) (opponent_of (request_of (vec_len opponents.old) (map (λ w. w.items) words.now))) opponents.old.items → IfOk result GoesThrough }
    ensures shelf_cause { Counts (S.faults shelf.old) (S.faults shelf.new) (is_read_fault result) }
    ensures out_cause { Counts (K.faults out.old) (K.faults out.new) (is_write_fault result) }
{
    let request = read_request(alloc, words, opponents.len())?;
    let limits = limits_of(request.command);
    let contents = read_files(alloc, shelf, limits, request.files)?;
    Ok(answer(alloc, &request, &contents, out, opponents, decider)?)
}

// Carries out a request by the contents of its files.
fn answer<K: Sink>(
    alloc: Global,
    request: &Request,
    contents: &[Vec<u8>],
    out: &mut K,
    opponents: &mut Vec<Box<dyn Opponent>>,
    decider: &mut Box<dyn Decider>,
) -> Result<Close, Stop<Content>>
    requires within { AreWithin (spec.limits_of request.now.command) (map (λ w. w.items) contents.now) }
    requires numbers { length request.now.numbers.items ≡ spec.numbers_of request.now.command }
    requires seat { spec.is_there (vec_len opponents.old) (spec.opponent_in request.now.command request.now.numbers.items) ≡ true }
    ensures written { (replies : List ℕ) → AreReplies (λ o. said o) (λ o. left o) (spec.opponent_in request.now.command request.now.numbers.items) opponents.old.items opponents.new.items replies
        → Writes content_told (ContentEnds request.now.command (map (λ w. w.items) contents.now) request.now.numbers.items replies) (K.written out.old) (K.written out.new) result }
    ensures refused { is_refused result ≡ true → (K.written out.new ≡ K.written out.old) × (opponents.new.items ≡ opponents.old.items) }
    ensures seats { vec_len opponents.new ≡ vec_len opponents.old }
    ensures others { ChangesOnly (spec.opponent_in request.now.command request.now.numbers.items) opponents.old.items opponents.new.items }
    ensures began { IfOk result (λ _. Begins (λ o. began o) request.now.command request.now.numbers.items opponents.new.items) }
    ensures missed { CountsAt (λ o. count o) (spec.opponent_in request.now.command request.now.numbers.items) opponents.old.items opponents.new.items (is_missed result) }
    ensures steady { IsSteadyAt (λ o. steady o) (spec.opponent_in request.now.command request.now.numbers.items) opponents.old.items → IfOk result GoesThrough }
    ensures cause { Counts (K.faults out.old) (K.faults out.new) (is_write_fault result) }
{
    match request.opponent() {
        Some(who) => play_at(
            alloc,
            &contents[0],
            &contents[1],
            &contents[2],
            opponents,
            who,
            request.numbers[1],
            out,
        ),
        None => answer_alone(alloc, request, contents, out, decider),
    }
}

// Carries out a request that is no play.
fn answer_alone<K: Sink>(
    alloc: Global,
    request: &Request,
    contents: &[Vec<u8>],
    out: &mut K,
    decider: &mut Box<dyn Decider>,
) -> Result<Close, Stop<Content>>
    requires within { AreWithin (spec.limits_of request.now.command) (map (λ w. w.items) contents.now) }
    requires numbers { length request.now.numbers.items ≡ spec.numbers_of request.now.command }
    requires alone { spec.opponent_in request.now.command request.now.numbers.items ≡ None }
    ensures written { (replies : List ℕ) → Writes content_told (ContentEnds request.now.command (map (λ w. w.items) contents.now) request.now.numbers.items replies)
        (K.written out.old) (K.written out.new) result }
    ensures cause { Counts (K.faults out.old) (K.faults out.new) (is_write_fault result) }
{
    match request.command {
        Command::Compile => compile(alloc, &contents[0], &contents[1], out),
        Command::Solve => solve(
            alloc,
            &contents[0],
            &contents[1],
            request.numbers[0],
            decider,
            out,
        ),
        Command::SolveFormula => {
            solve_formula(alloc, &contents[0], request.numbers[0], decider, out)
        }
        Command::Certify => certify(
            alloc,
            &contents[0],
            &contents[1],
            request.numbers[0],
            decider,
            out,
        ),
        Command::Check => check(alloc, &contents[0], &contents[1], &contents[2], out),
        Command::Recertify => recertify(alloc, &contents[0], &contents[1], &contents[2], out),
        Command::Trial => trial(alloc, request.numbers[0], request.numbers[1], decider, out),
        Command::FormatDomain => format_domain(alloc, &contents[0], out),
        Command::FormatProblem => format_problem(alloc, &contents[0], out),
        Command::Help => help(out),
        Command::Version => version(out),
        Command::Play => unreachable!(),
    }
}

// Notes a line, which may be empty, and answers the status.
fn tell<N: Sink>(status: u8, line: Result<String, AllocError>, note: &mut N) -> u8
    requires { NotCut status }
    ensures told { (end : End) → status ≡ end.status → IfOk line (λ text. string_bytes text ≡ end.note)
        → Tells end (N.written note.old) (N.written note.new) result }
    ensures cause { Counts (N.faults note.old) (N.faults note.new) (result == 4) }
{
    let Ok(line) = line else {
        return 5;
    };
    match put_text(note, line.as_bytes()) {
        Ok(()) => status,
        Err(SinkEnd::Failed) => 4,
        Err(SinkEnd::NoMemory) => 5,
    }
}
