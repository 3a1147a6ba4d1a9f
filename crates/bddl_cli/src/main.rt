//! The program `bddl`. What it does is `run` of `bddl_requests`, over the machine's files and its standard streams.
#![tactic(auto)]

use bddl_requests::run;
use game_play::{FirstMove, Opponent, PcgPlayer, Typed};
use io_edge::{FileShelf, StreamSink};
use qbf_search::{Decider, PlainDecider};
use std::alloc::AllocError;
use std::io::ErrorKind;
use std::process::ExitCode;
use std::{env, io};

// The words behind the program's name.
fn words(rt: &HostRuntime) -> io::Result<Vec<Vec<u8>>> {
    let mut words = Vec::new(rt.alloc());
    for word in env::args(rt)?.skip(1) {
        words.push(word.into_bytes())?;
    }
    Ok(words)
}

// Answers the words. The opponents are, in this order, who types at standard input, one that makes the
// first move, and one that makes moves which the number of the request decides.
fn answer(rt: &HostRuntime, words: &[Vec<u8>]) -> Result<u8, AllocError> {
    let mut opponents: Vec<Box<dyn Opponent>> = Vec::new(rt.alloc());
    opponents.push(Box::new(rt.alloc(), Typed::over(rt.stdin()))?)?;
    opponents.push(Box::new(rt.alloc(), FirstMove::new())?)?;
    opponents.push(Box::new(rt.alloc(), PcgPlayer::new())?)?;
    let mut decider: Box<dyn Decider> = Box::new(rt.alloc(), PlainDecider::new())?;
    Ok(run(
        rt.alloc(),
        words,
        &mut FileShelf::over(rt),
        &mut StreamSink::over(rt.stdout()),
        &mut StreamSink::over(rt.stderr()),
        &mut opponents,
        &mut decider,
    ))
}

fn main(rt: HostRuntime) -> ExitCode {
    let words = match words(&rt) {
        Ok(words) => words,
        Err(error) if error.kind() == ErrorKind::OutOfMemory => return ExitCode::from(5),
        // Some word is no text, and so there is no such request.
        Err(_) => Vec::new(rt.alloc()),
    };
    ExitCode::from(answer(&rt, &words).unwrap_or(5))
}
