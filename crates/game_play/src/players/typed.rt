ghost use Rattle.std.specs.Prelude.{◌≡◌, ◌≤◌, [], IfSome};
ghost use Rattle.game_play.specs.Players.{typed_number};

use super::said::Said;
use crate::opponent::{Opponent, Reply};
use bddl_model::Move;
use grid_game::Board;
use std::io::Read;

const LONGEST: usize = 64;

// What a line answers that is no number.
const NO_NUMBER: u64 = u64::MAX;

/// Answers the numbers that stand on the lines of a reader.
///
/// A line is read for each reply, and nothing behind it. It ends with LF or after 64 bytes, and where it ends
/// without LF the next line begins behind these bytes. Its number is decimal and has 1 to 19 digits, zeros at
/// its front among them; any other line answers 18446744073709551615. A read that fails, or an input that ends
/// before the line does, counts as a fault, and no answer comes.
#[derive(Drop)]
pub struct Typed<R: Read + Drop> {
    reader: R,
    faults: u64,
    said: Said,
}

impl<R: Read + Drop> Typed<R> {
    pub fn over(reader: R) -> Self
        ensures began { ⟦<Typed<R> as Opponent>⟧.began result ≡ 0 }
        ensures said { ⟦<Typed<R> as Opponent>⟧.said result ≡ [] }
        ensures count { ⟦<Typed<R> as Opponent>⟧.count result ≡ 0 }
    {
        Typed {
            reader,
            faults: 0,
            said: Said::new(),
        }
    }
}

fn next_byte<R: Read>(reader: &mut R) -> Option<u8> {
    let mut byte = [0u8; 1];
    match reader.read(&mut byte) {
        Ok(1) => Some(byte[0]),
        _ => None,
    }
}

// Reads a line, and returns its length without LF.
fn read_line<R: Read>(reader: &mut R, line: &mut [u8; LONGEST]) -> Option<usize>
    ensures { IfSome result (λ len. len ≤ 64) }
{
    for len in 0..LONGEST {
        let byte = next_byte(reader)?;
        if byte == b'\n' {
            return Some(len);
        }
        line[len] = byte;
    }
    Some(LONGEST)
}

fn number_on(line: &[u8]) -> Option<u64>
    ensures { result ≡ typed_number line.now }
{
    if line.is_empty() || line.len() > 19 {
        return None;
    }
    let mut number: u64 = 0;
    for digit in line {
        if !(b'0' <= *digit && *digit <= b'9') {
            return None;
        }
        number = 10 * number + u64::from(*digit - b'0');
    }
    Some(number)
}

impl<R: Read + Drop> Opponent for Typed<R> {
    ghost use Rattle.std.specs.Prelude.{false, None};

    ghost count = { λ s. s.faults };

    ghost began = { λ s. s.said.began };

    ghost said = { λ s. s.said.numbers };

    ghost steady = { λ _. false };

    ghost left = { λ _. None };

    fn start(&mut self, number: u64) {
        self.said.begin(number);
    }

    fn reply(&mut self, _board: &Board, _moves: &[Move]) -> Reply {
        let mut line = [0u8; LONGEST];
        match read_line(&mut self.reader, &mut line) {
            Some(len) => {
                let number = number_on(&line[..len]).unwrap_or(NO_NUMBER);
                self.said.push(number);
                Reply::Choice(number)
            }
            None => {
                self.faults = self.faults.saturating_add(1);
                Reply::Gone
            }
        }
    }
}
