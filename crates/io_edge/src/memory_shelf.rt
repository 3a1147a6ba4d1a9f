ghost use Rattle.std.specs.Prelude.{◌≡◌, ◌==◌, ◌<◌, ◌+◌, ◌^◌, [], ◌∷◌, ◌++◌, Some, None, Option, OnOk, OnErr, IsErrOf};
ghost use Rattle.std.specs.FinMap as map;
ghost use Rattle.std.specs.FinMap.{get};
ghost use Rattle.std.specs.List.{list_any};
ghost use Rattle.std.specs.Option.{option_copied, ForSome};
ghost use Rattle.io_edge.specs.Ends.{read_failed};
ghost use Rattle.io_edge.specs.Fakes.{files_of, IsCalm, read_fails, after_read, StoredFiles};
ghost use Rattle.io_edge.specs.Outside.{cut_file, Counts, Delivers, DeliversFront};

use crate::{Shelf, ShelfEnd};
use bddl_model::NoMemory;
use std::alloc::Global;
use std::marker::Model;

/// Files in memory. The newest stands first, and hides an older one of its name.
#[derive(Drop)]
pub struct MemoryShelf {
    alloc: Global,
    files: Vec<(Vec<u8>, Vec<u8>)>,
    calls: u64,
    failing: Vec<u64>,
    faults: u64,
}

impl Model for MemoryShelf {
    ghost use Rattle.io_edge.specs.Fakes.{StoredFiles, stored_files_code, files_of};

    ghost Value = { StoredFiles };

    ghost coded = { stored_files_code };

    ghost view = { λ s. record {
      files = files_of s.files.items;
      calls = s.calls;
      failing = s.failing.items;
      faults = s.faults;
    } };
}

impl MemoryShelf {
    pub fn new(alloc: Global) -> Self
        ensures { result ≡ record { files = map.empty; calls = 0; failing = []; faults = 0 } }
    {
        MemoryShelf {
            alloc,
            files: Vec::new(alloc),
            calls: 0,
            failing: Vec::new(alloc),
            faults: 0,
        }
    }

    /// Puts a file in the place of one of its name.
    pub fn put_file(&mut self, name: &[u8], bytes: &[u8]) -> Result<(), NoMemory>
        ensures ok { OnOk result
            (self.new ≡ record self.old { files = map.insert self.old.files name.now bytes.now }) }
        ensures err { OnErr result (self.new ≡ self.old) }
    {
        let name = name.to_vec(self.alloc)?;
        let bytes = bytes.to_vec(self.alloc)?;
        self.files.insert(0, (name, bytes))?;
        Ok(())
    }

    /// The call of this number, counted from 1, is to fail.
    pub fn fail_at(&mut self, call: u64) -> Result<(), NoMemory>
        ensures ok { OnOk result
            (self.new ≡ record self.old { failing = self.old.failing ++ call ∷ [] }) }
        ensures err { OnErr result (self.new ≡ self.old) }
    {
        self.failing.push(call)?;
        Ok(())
    }
}

fn find_file<'a>(files: &'a [(Vec<u8>, Vec<u8>)], name: &[u8]) -> Option<&'a [u8]>
    ensures { option_copied result ≡ map.get (files_of files.now) name.now }
{
    for (known, bytes) in files {
        if name.cmp(&known.as_slice()).is_eq() {
            return Some(bytes);
        }
    }
    None
}

// The file, cut one byte past the limit.
fn cut(bytes: &[u8], max: Option<u64>) -> &[u8]
    ensures { result.now ≡ cut_file max bytes.now }
{
    match max {
        Some(max) if max < bytes.len() as u64 => &bytes[..max as usize + 1],
        _ => bytes,
    }
}

// Whether the call behind so many calls is to fail.
fn is_named(failing: &[u64], calls: u64) -> bool
    ensures { result ≡ list_any (λ call. call == calls + 1) failing.now }
{
    for call in failing {
        if *call != 0 && *call - 1 == calls {
            return true;
        }
    }
    false
}

impl Shelf for MemoryShelf {
    ghost held = { λ s. Some s.files };

    ghost faults = { λ s. s.faults };

    ghost calm = { λ s. IsCalm s };

    fn read(&mut self, name: &[u8], max: Option<u64>, into: &mut Vec<u8>) -> Result<(), ShelfEnd>
        requires empty { into.old.items ≡ [] }
        requires limit { ForSome max (λ m. m < 2 ^ 62) }

        // It fails where it is to, and nowhere else.
        ensures failed { read_failed result ≡ read_fails self.old name.now }
        ensures state { self.new ≡ after_read self.old (read_failed result) }
        ensures ok { OnOk result (Delivers (Some self.old.files) name.now max into.new.items) }
        ensures nothing { OnErr result (into.new.items ≡ []) }

        // What the trait promises of each shelf.
        ensures err { OnErr result (DeliversFront (Some self.old.files) name.now into.new.items) }
        ensures held { self.new.files ≡ self.old.files }
        ensures cause { Counts self.old.faults self.new.faults (read_failed result) }
        ensures calm { IsCalm self.old → IsCalm self.new }
        ensures calm_cause { IsCalm self.old → IsErrOf result ShelfEnd.Failed
            → get self.old.files name.now ≡ None }
    {
        let named = is_named(&self.failing, self.calls);
        self.calls = self.calls.saturating_add(1);
        if !named {
            if let Some(bytes) = find_file(&self.files, name) {
                into.extend_from_slice(cut(bytes, max))?;
                return Ok(());
            }
        }
        self.faults = self.faults.saturating_add(1);
        Err(ShelfEnd::Failed)
    }
}

#[cfg(test)]
mod tests {
    use super::*;

    #[test]
    fn fails_at_its_named_calls_and_missing_names(rt: HostRuntime) {
        let mut shelf = MemoryShelf::new(rt.alloc());
        assert_eq!(rt; shelf.put_file(b"one", b"old"), Ok(()));
        assert_eq!(rt; shelf.put_file(b"one", b"abcdef"), Ok(()));
        assert_eq!(rt; shelf.fail_at(2), Ok(()));
        for (name, max, want, text) in [
            ("one", None, Ok(()), "abcdef"),
            ("one", None, Err(ShelfEnd::Failed), ""),
            ("one", Some(5), Ok(()), "abcdef"),
            ("one", Some(4), Ok(()), "abcde"),
            ("two", None, Err(ShelfEnd::Failed), ""),
        ] {
            let mut into = Vec::new(rt.alloc());
            assert_eq!(rt; shelf.read(name.as_bytes(), max, &mut into), want);
            assert_eq!(rt; into.as_slice(), text.as_bytes());
        }
        assert_eq!(rt; shelf.faults, 2);
    }
}
