use super::*;
use crate::{SteadySink, put_text};
use std::test::Fail;

// Keeps the lengths of the pieces that it is given.
#[derive(Drop)]
struct Lengths {
    lengths: Vec<usize>,
}

impl Sink for Lengths {
    ghost use Rattle.std.specs.Prelude.{None};

    ghost written = { λ _. None };

    ghost faults = { λ _. 0 };

    fn put(&mut self, bytes: &[u8]) -> Result<(), SinkEnd> {
        self.lengths.push(bytes.len())?;
        Ok(())
    }
}

#[test]
fn puts_full_pieces_and_then_the_rest(rt: HostRuntime) -> Result<(), Fail> {
    let text = vec![in rt.alloc(); b'a'; 4100]?;
    let mut sink = Lengths {
        lengths: Vec::new(rt.alloc()),
    };
    let mut buffer = PieceBuffer::new();
    for _ in 0..2 {
        assert_eq!(rt; buffer.add(&mut sink, &text), Ok(()));
        assert_eq!(rt; buffer.add(&mut sink, b"bc"), Ok(()));
    }
    assert_eq!(rt; buffer.finish(&mut sink), Ok(()));
    assert_eq!(rt; sink.lengths.as_slice(), [4096, 4096, 12].as_slice());
    assert_eq!(rt; put_text(&mut sink, &text), Ok(()));
    assert_eq!(rt;
        sink.lengths.as_slice(),
        [4096, 4096, 12, 4096, 4].as_slice()
    );
    Ok(())
}

#[test]
fn puts_nothing_where_nothing_came(rt: HostRuntime) {
    let mut sink = SteadySink::new(rt.alloc());
    assert_eq!(rt; PieceBuffer::new().finish(&mut sink), Ok(()));
    assert_eq!(rt; put_text(&mut sink, b""), Ok(()));
    assert!(rt; sink.bytes().is_empty());
    assert_eq!(rt; put_text(&mut sink, b"all"), Ok(()));
    assert_eq!(rt; sink.bytes(), b"all".as_slice());
}
