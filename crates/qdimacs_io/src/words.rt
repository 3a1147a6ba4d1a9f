// The words of a formula text, one after the other, in one pass over its bytes.
ghost use Rattle.std.specs.Prelude.{◌≡◌, ◌+◌, ◌<◌, ◌≤◌, ◌^◌, [], ◌∷◌, ◌||◌, ◌==◌, length, true, false, IfNone, IfSome, MatchOption};
ghost use Rattle.bddl_model.specs.Bytes as bytes;
ghost use Rattle.bddl_model.specs.FormulaWords.{words_of, last_line, word_on};
ghost use Rattle.qdimacs_io.specs.Scanning as spec;
ghost use Rattle.qdimacs_io.specs.Scanning.{PassesGap, IsAtWord};

use std::marker::Model;

/// A word, and the number of its line.
#[derive(Clone, Copy)]
pub struct Word<'a> {
    pub line: u32,
    pub text: &'a [u8],
}

/// Where a scanner stands in a text.
#[derive(Clone, Copy)]
pub struct Position<'a> {
    rest: &'a [u8],
    line: u32,
    // Whether only spaces and tabs stood on the line so far, so that a comment can begin.
    fresh: bool,
}

/// The words of a text that are still to come.
#[derive(Drop)]
pub struct Words<'a> {
    at: Position<'a>,
}

impl<'a> Model for Words<'a> {
    ghost use Rattle.std.specs.Prelude.{◌+◌, ◌<◌, ◌^◌, length};
    ghost use Rattle.qdimacs_io.specs.Scanning.{Remaining, remaining};

    ghost Value = { Remaining };

    ghost view = { λ w. remaining w.at };

    ghost invariant = { λ w. length w.at.rest.now + w.at.line < 2 ^ 32 };
}

fn is_white(byte: u8) -> bool
    ensures { result ≡ bytes.is_white byte }
{
    byte == b' ' || byte == b'\t' || byte == b'\r' || byte == b'\n'
}

fn is_blank(byte: u8) -> bool
    ensures { result ≡ (byte == 32 || byte == 9) }
{
    byte == b' ' || byte == b'\t'
}

// How many bytes stand before the first line feed.
fn line_len(bytes: &[u8]) -> usize
    ensures len { result ≡ spec.line_len bytes.now }
    ensures within { result ≤ length bytes.now }
{
    for (i, byte) in bytes.iter().enumerate() {
        if *byte == b'\n' {
            return i;
        }
    }
    bytes.len()
}

// How many bytes that aren't white stand in front.
fn run_len(bytes: &[u8]) -> usize
    ensures len { result ≡ spec.run_len bytes.now }
    ensures within { result ≤ length bytes.now }
{
    for (i, byte) in bytes.iter().enumerate() {
        if is_white(*byte) {
            return i;
        }
    }
    bytes.len()
}

impl<'a> Position<'a> {
    // The position behind a white byte or a comment; none where a word begins or the text ends.
    fn passed(&self) -> Option<Position<'a>>
        requires { length self.now.rest.now + self.now.line < 2 ^ 32 }
        ensures gap { MatchOption result (IsAtWord self.now.fresh self.now.rest.now) (λ next. PassesGap self.now next) }
        ensures shorter { IfSome result (λ next. length next.rest.now < length self.now.rest.now) }
    {
        match self.rest {
            [] => None,
            [b'\n', behind @ ..] => Some(Position {
                rest: behind,
                line: self.line + 1,
                fresh: true,
            }),
            [byte, behind @ ..] => {
                if is_blank(*byte) {
                    return Some(Position {
                        rest: behind,
                        line: self.line,
                        fresh: self.fresh,
                    });
                }
                if *byte == b'\r' {
                    return Some(Position {
                        rest: behind,
                        line: self.line,
                        fresh: false,
                    });
                }
                if *byte == b'c' && self.fresh {
                    return Some(Position {
                        rest: &behind[line_len(behind)..],
                        line: self.line,
                        fresh: true,
                    });
                }
                None
            }
        }
    }

    // The position at the next word, or at the end of the text.
    fn at_word(&self) -> Position<'a>
        requires { length self.now.rest.now + self.now.line < 2 ^ 32 }
        ensures passed { PassesGap self.now result }
        ensures found { IsAtWord result.fresh result.rest.now }
    {
        let mut at = *self;
        'gap: while let Some(next) = at.passed() {
            at = next;
        }
        at
    }
}

impl<'a> Words<'a> {
    pub fn of(bytes: &'a [u8]) -> Words<'a>
        requires { length bytes.now ≤ 67108864 }
        ensures words { result.words ≡ words_of bytes.now }
        ensures last { result.last ≡ last_line bytes.now }
        ensures bytes { result.bytes ≡ length bytes.now }
    {
        Words {
            at: Position {
                rest: bytes,
                line: 1,
                fresh: true,
            },
        }
    }

    /// The next word.
    pub fn next(&mut self) -> Option<Word<'a>>
        ensures word { MatchOption result (self.old.words ≡ []) (λ w. self.old.words ≡ word_on w.line w.text.now ∷ self.new.words) }
        ensures last { self.new.last ≡ self.old.last }
        ensures end { IfNone result (self.new.line ≡ self.old.last) }
        ensures shorter { IfSome result (λ _. self.new.bytes < self.old.bytes) }
    {
        let at = self.at.at_word();
        let (text, behind) = at.rest.split_at(run_len(at.rest));
        self.at = Position {
            rest: behind,
            line: at.line,
            fresh: false,
        };
        if text.is_empty() {
            return None;
        }
        Some(Word {
            line: at.line,
            text,
        })
    }

    /// The number of the line up to which words were taken; behind the last one, of the text's last line.
    pub fn line(&self) -> u32
        ensures { result ≡ self.now.line }
    {
        self.at.line
    }
}
