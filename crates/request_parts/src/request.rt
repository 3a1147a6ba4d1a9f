// Which words are a request.
ghost use Rattle.std.specs.Prelude.{◌≡◌, ◌⊎◌, true, None, Some, Ok, Err, IfOk, IfErr, length, map};
ghost use Rattle.bddl_model.specs.Request as spec;
ghost use Rattle.request_parts.specs.Seen.{seen};

use crate::command::{limits_of, named, numbers_of};
use crate::number::numbers_in_words;
use crate::refusal::{Refusal, Stop};
use bddl_model::Command;
use std::alloc::Global;

/// A command with the names of its files and with its numbers.
#[derive(Drop)]
pub struct Request<'a> {
    pub command: Command,
    pub files: &'a [Vec<u8>],
    pub numbers: Vec<u64>,
}

// The request of a command line, whoever plays.
fn request_in(alloc: Global, words: &[Vec<u8>]) -> Result<Request<'_>, Stop<Refusal>>
    ensures found { IfOk result (λ r. spec.request_in (map (λ w. w.items) words.now) ≡ Some (seen r)) }
    ensures files { IfOk result (λ r. length r.files.now ≡ length (spec.limits_of r.command)) }
    ensures numbers { IfOk result (λ r. length r.numbers.items ≡ spec.numbers_of r.command) }
    ensures stop { IfErr result (λ s. (s ≡ Stop.NoMemory)
        ⊎ ((s ≡ Stop.Refused Refusal.NoRequest) × (spec.request_in (map (λ w. w.items) words.now) ≡ None))) }
{
    let [word, words @ ..] = words else {
        return Err(Stop::Refused(Refusal::NoRequest));
    };
    let Some(command) = named(word) else {
        return Err(Stop::Refused(Refusal::NoRequest));
    };
    let files = limits_of(command).len();
    if words.len() != files + numbers_of(command) {
        return Err(Stop::Refused(Refusal::NoRequest));
    }
    let (files, numbers) = words.split_at(files);
    match numbers_in_words(alloc, numbers)? {
        None => Err(Stop::Refused(Refusal::NoRequest)),
        Some(numbers) => Ok(Request {
            command,
            files,
            numbers,
        }),
    }
}

// The opponent that a play names.
fn opponent_in(command: Command, numbers: &[u64]) -> Option<u64>
    ensures { result ≡ spec.opponent_in command numbers.now }
{
    match command {
        Command::Play => numbers.first().copied(),
        _ => None,
    }
}

impl Request<'_> {
    /// The opponent that a play is against.
    pub fn opponent(&self) -> Option<u64>
        ensures { result ≡ spec.opponent_in self.now.command self.now.numbers.items }
    {
        opponent_in(self.command, &self.numbers)
    }
}

/// The request of a command line, without the program's name, where there are so many opponents.
pub fn read_request(
    alloc: Global,
    words: &[Vec<u8>],
    players: usize,
) -> Result<Request<'_>, Stop<Refusal>>
    ensures found { IfOk result (λ r. spec.request_of players (map (λ w. w.items) words.now) ≡ Some (seen r)) }
    ensures files { IfOk result (λ r. length r.files.now ≡ length (spec.limits_of r.command)) }
    ensures numbers { IfOk result (λ r. length r.numbers.items ≡ spec.numbers_of r.command) }
    ensures opponent { IfOk result (λ r. spec.is_there players (spec.opponent_in r.command r.numbers.items) ≡ true) }
    ensures stop { IfErr result (λ s. (s ≡ Stop.NoMemory)
        ⊎ ((s ≡ Stop.Refused Refusal.NoRequest) × (spec.request_of players (map (λ w. w.items) words.now) ≡ None))) }
{
    let request = request_in(alloc, words)?;
    match request.opponent() {
        Some(who) if who >= players as u64 => Err(Stop::Refused(Refusal::NoRequest)),
        _ => Ok(request),
    }
}
