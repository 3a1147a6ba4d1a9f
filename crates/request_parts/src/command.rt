// The table of commands.
ghost use Rattle.std.specs.Prelude.{◌≡◌, ◌≤◌, length};
ghost use Rattle.bddl_model.specs.Request as spec;

use bddl_model::Command;

// The most bytes of a game file.
const GAME: Option<u64> = Some(1_048_576);

// A certificate may be as long as memory allows.
const CERTIFICATE: Option<u64> = None;

// The most bytes of a formula file.
const FORMULA: Option<u64> = Some(67_108_864);

/// The command that a word names.
pub fn named(word: &[u8]) -> Option<Command>
    ensures { result ≡ spec.first_named word.now spec.commands }
{
    if word == b"compile".as_slice() {
        return Some(Command::Compile);
    }
    if word == b"solve".as_slice() {
        return Some(Command::Solve);
    }
    if word == b"qsolve".as_slice() {
        return Some(Command::SolveFormula);
    }
    if word == b"certify".as_slice() {
        return Some(Command::Certify);
    }
    if word == b"check".as_slice() {
        return Some(Command::Check);
    }
    if word == b"recert".as_slice() {
        return Some(Command::Recertify);
    }
    if word == b"play".as_slice() {
        return Some(Command::Play);
    }
    if word == b"trial".as_slice() {
        return Some(Command::Trial);
    }
    if word == b"fmt-domain".as_slice() {
        return Some(Command::FormatDomain);
    }
    if word == b"fmt-problem".as_slice() {
        return Some(Command::FormatProblem);
    }
    if word == b"help".as_slice() || word == b"--help".as_slice() {
        return Some(Command::Help);
    }
    if word == b"version".as_slice() || word == b"--version".as_slice() {
        return Some(Command::Version);
    }
    None
}

/// The files that a command takes, by the most bytes that each may have, if there is such a number.
pub fn limits_of(command: Command) -> &'static [Option<u64>]
    ensures table { result.now ≡ spec.limits_of command }
    ensures few { length result.now ≤ 3 }
{
    match command {
        Command::Compile | Command::Solve | Command::Certify => &[GAME, GAME],
        Command::Check | Command::Recertify | Command::Play => &[GAME, GAME, CERTIFICATE],
        Command::SolveFormula => &[FORMULA],
        Command::FormatDomain | Command::FormatProblem => &[GAME],
        Command::Trial | Command::Help | Command::Version => &[],
    }
}

/// How many numbers follow the files.
pub fn numbers_of(command: Command) -> usize
    ensures table { result ≡ spec.numbers_of command }
    ensures few { result ≤ 2 }
{
    match command {
        Command::Play | Command::Trial => 2,
        Command::Solve | Command::SolveFormula | Command::Certify => 1,
        Command::Compile
        | Command::Check
        | Command::Recertify
        | Command::FormatDomain
        | Command::FormatProblem
        | Command::Help
        | Command::Version => 0,
    }
}
