// The files that a request names.
ghost use Rattle.std.specs.Prelude.{◌≡◌, ◌≤◌, ◌<◌, ◌^◌, false, ℕ, List, Bool, Option, All, IfErr, length, map};
ghost use Rattle.std.specs.Option.{ForSome};
ghost use Rattle.bddl_model.specs.Outcome.{Finds};
ghost use Rattle.io_edge.specs.Outside.{Counts};
ghost use Rattle.request_parts.specs.Ends.{FindsOne, IsFileStop, ReadsFile, ReadsFiles, is_read_fault};

use crate::refusal::{FileEnd, Refusal, Stop};
use io_edge::{Shelf, ShelfEnd};
use std::alloc::Global;

/// Reads the files of these names, the first of which is the second word. Each has its limit.
pub fn read_files<S: Shelf>(
    alloc: Global,
    shelf: &mut S,
    limits: &[Option<u64>],
    names: &[Vec<u8>],
) -> Result<Vec<Vec<u8>>, Stop<Refusal>>
    requires limits { All (λ limit. ForSome limit (λ most. most < 2 ^ 62)) limits.now }
    requires lengths { length names.now ≡ length limits.now }
    ensures read { (faulty : Bool) → (faulty ≡ false → S.calm shelf.old) → (found : List (Option (List ℕ)))
        × Finds (S.held shelf.old) (map (λ w. w.items) names.now) found
        × ReadsFiles (λ files. map (λ w. w.items) files.items) faulty limits.now found result }
    ensures stop { IfErr result IsFileStop }
    ensures cause { Counts (S.faults shelf.old) (S.faults shelf.new) (is_read_fault result) }
{
    let mut contents = Vec::with_capacity(alloc, names.len())?;
    'files: for i in 0..names.len() {
        contents.push(read_file(alloc, shelf, i + 2, limits[i], &names[i])?)?;
    }
    Ok(contents)
}

// Reads the file that the word of this number names. A byte past its limit tells a longer one.
fn read_file<S: Shelf>(
    alloc: Global,
    shelf: &mut S,
    word: usize,
    limit: Option<u64>,
    name: &[u8],
) -> Result<Vec<u8>, Stop<Refusal>>
    requires { ForSome limit (λ most. most < 2 ^ 62) }
    ensures read { (faulty : Bool) → (faulty ≡ false → S.calm shelf.old) → (found : Option (List ℕ))
        × FindsOne (S.held shelf.old) name.now found
        × ReadsFile (λ w. w.items) faulty word limit found result }
    ensures stop { IfErr result IsFileStop }
    ensures held { S.held shelf.new ≡ S.held shelf.old }
    ensures calm { S.calm shelf.old → S.calm shelf.new }
    ensures cause { Counts (S.faults shelf.old) (S.faults shelf.new) (is_read_fault result) }
{
    let mut bytes = Vec::new(alloc);
    match shelf.read(name, limit, &mut bytes) {
        Ok(()) => {}
        Err(ShelfEnd::Failed) => return Err(refused(word, FileEnd::ReadFault)),
        Err(ShelfEnd::NoMemory) => return Err(Stop::NoMemory),
    }
    if let Some(most) = limit {
        if bytes.len() as u64 > most {
            return Err(refused(word, FileEnd::TooLong(most)));
        }
    }
    Ok(bytes)
}

fn refused(word: usize, end: FileEnd) -> Stop<Refusal>
    ensures { result ≡ Stop.Refused (Refusal.File word end) }
{
    Stop::Refused(Refusal::File { word, end })
}
