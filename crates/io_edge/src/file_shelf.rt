ghost use Rattle.std.specs.Prelude.{◌≡◌, ◌≤◌, ◌<◌, ◌+◌, ◌^◌, [], None, OnOk, OnErr, IsUtf8, vec_len};
ghost use Rattle.std.specs.Option.{ForSome};
ghost use Rattle.io_edge.specs.Adapters.{longest_read};
ghost use Rattle.io_edge.specs.Ends.{read_failed};
ghost use Rattle.io_edge.specs.Outside.{count_after, Counts, Delivers, DeliversFront};

use crate::{Shelf, ShelfEnd};
use std::io::Read;
use std::marker::Model;
use std::rt::Files;
use std::{fs, str};

const PIECE: usize = 4096;

// A read with no limit ends with a fault here.
const NO_LIMIT: u64 = 1 << 62;

/// The files of the system. It tells nothing of their content, and contracts see its count of
/// faults.
#[derive(Drop)]
pub struct FileShelf<'a, R: Files> {
    rt: &'a R,
    faults: u64,
}

impl<'a, R: Files> Model for FileShelf<'a, R> {
    ghost use Rattle.std.specs.Prelude.{ℕ};

    ghost Value = { ℕ };

    ghost view = { λ s. s.faults };
}

impl<'a, R: Files> FileShelf<'a, R> {
    pub fn over(rt: &'a R) -> Self
        ensures { result ≡ 0 }
    {
        FileShelf { rt, faults: 0 }
    }
}

// Reads the file to its end or its limit.
fn read_file<R: Files>(
    rt: &R,
    name: &[u8],
    max: Option<u64>,
    into: &mut Vec<u8>,
) -> Result<(), ShelfEnd>
    requires empty { into.old.items ≡ [] }
    requires limit { ForSome max (λ m. m < 2 ^ 62) }
    ensures named { OnOk result (IsUtf8 name.now) }
    ensures cut { OnOk result (vec_len into.new ≤ longest_read max) }
{
    let Ok(name) = str::from_utf8(name) else {
        return Err(ShelfEnd::Failed);
    };
    let Ok(mut file) = fs::open(rt, name) else {
        return Err(ShelfEnd::Failed);
    };
    let limit = match max {
        None => NO_LIMIT,
        Some(max) => max + 1,
    };
    let mut piece = [0u8; PIECE];
    'pieces: while (into.len() as u64) < limit {
        let room = (limit - into.len() as u64) as usize;
        let wanted = room.min(PIECE);
        match file.read(&mut piece[..wanted]) {
            Ok(0) => return Ok(()),
            Ok(n) => into.extend_from_slice(&piece[..n])?,
            Err(_) => return Err(ShelfEnd::Failed),
        }
    }
    match max {
        None => Err(ShelfEnd::Failed),
        Some(_) => Ok(()),
    }
}

impl<R: Files> Shelf for FileShelf<'_, R> {
    ghost held = { λ _. None };

    ghost faults = { λ s. s };

    ghost calm = { λ _. ⊥ };

    fn read(&mut self, name: &[u8], max: Option<u64>, into: &mut Vec<u8>) -> Result<(), ShelfEnd>
        requires empty { into.old.items ≡ [] }
        requires limit { ForSome max (λ m. m < 2 ^ 62) }
        ensures named { OnOk result (IsUtf8 name.now) }
        ensures cut { OnOk result (vec_len into.new ≤ longest_read max) }
        ensures count { self.new ≡ count_after self.old (read_failed result) }

        // What the trait promises of each shelf.
        ensures ok { OnOk result (Delivers None name.now max into.new.items) }
        ensures err { OnErr result (DeliversFront None name.now into.new.items) }
        ensures cause { Counts self.old self.new (read_failed result) }
    {
        match read_file(self.rt, name, max, into) {
            Err(ShelfEnd::Failed) => {
                self.faults = self.faults.saturating_add(1);
                Err(ShelfEnd::Failed)
            }
            other => other,
        }
    }
}

#[cfg(test)]
mod tests {
    use super::*;
    use std::env;
    use std::test::Fail;

    #[test]
    fn reads_a_file_up_to_its_limit(rt: HostRuntime) -> Result<(), Fail> {
        let path = env::temp_dir(&rt)?.join(rt.alloc(), "io_edge_file_shelf")?;
        fs::write(&rt, path.as_path(), b"abcdef".as_slice())?;
        let mut shelf = FileShelf::over(&rt);
        for (max, want) in [
            (None, "abcdef"),
            (Some(6), "abcdef"),
            (Some(5), "abcdef"),
            (Some(4), "abcde"),
            (Some(0), "a"),
        ] {
            let mut into = Vec::new(rt.alloc());
            let answer = shelf.read(path.as_str().as_bytes(), max, &mut into);
            assert_eq!(rt; answer, Ok(()));
            assert_eq!(rt; into.as_slice(), want.as_bytes(), "at {max:?}");
        }
        assert_eq!(rt; shelf.faults, 0);
        fs::remove_file(&rt, path.as_path())?;
        Ok(())
    }

    #[test]
    fn counts_names_that_it_cannot_open(rt: HostRuntime) {
        let mut shelf = FileShelf::over(&rt);
        let mut into = Vec::new(rt.alloc());
        assert_eq!(rt;
            shelf.read(b"no/such/file", None, &mut into),
            Err(ShelfEnd::Failed)
        );
        assert_eq!(rt; shelf.faults, 1);
        assert!(rt; into.is_empty());
        assert_eq!(rt; shelf.read(&[0xff], None, &mut into), Err(ShelfEnd::Failed));
        assert_eq!(rt; shelf.faults, 2);
    }
}
