use super::*;
use std::io::{Error, ErrorKind};
use std::test::Fail;
use std::{env, fs, io};

// A writer that takes so many bytes a call, and that may fail to flush.
#[derive(Drop)]
struct Narrow {
    width: usize,
    flushes: bool,
}

impl Write for Narrow {
    fn write(&mut self, bytes: &[u8]) -> io::Result<usize> {
        Ok(self.width.min(bytes.len()))
    }

    fn flush(&mut self) -> io::Result<()> {
        if self.flushes {
            Ok(())
        } else {
            Err(Error::from(ErrorKind::Other))
        }
    }
}

#[test]
fn writes_a_file(rt: HostRuntime) -> Result<(), Fail> {
    let path = env::temp_dir(&rt)?.join(rt.alloc(), "io_edge_stream_sink")?;
    let mut sink = StreamSink::over(fs::create(&rt, path.as_path())?);
    assert_eq!(rt; sink.put(b"one "), Ok(()));
    assert_eq!(rt; sink.put(b"two"), Ok(()));
    assert_eq!(rt; sink.faults, 0);
    assert_eq!(rt;
        fs::read(&rt, path.as_path())?.as_slice(),
        b"one two".as_slice()
    );
    fs::remove_file(&rt, path.as_path())?;
    Ok(())
}

#[test]
fn counts_what_a_writer_refuses(rt: HostRuntime) {
    for (width, flushes, want, faults) in [
        (1, true, Ok(()), 0),
        (0, true, Err(SinkEnd::Failed), 1),
        (9, false, Err(SinkEnd::Failed), 1),
    ] {
        let mut sink = StreamSink::over(Narrow { width, flushes });
        assert_eq!(rt; sink.put(b"piece"), want, "at {width}");
        assert_eq!(rt; sink.faults, faults, "at {width}");
    }
}
