// Formulas of games, as they are read back.
use io_edge::SteadySink;
use qdimacs_io::{read_qdimacs, write_qdimacs};
use std::alloc::Global;
use std::process::Abort;
use std::test::Fail;

/// The text is that of the form that is read from it.
pub fn assert_reads_back(rt: &impl Abort, alloc: Global, text: &[u8]) -> Result<(), Fail> {
    assert!(rt; text.len() <= 67_108_864);
    let read = read_qdimacs(alloc, text)?;
    assert_eq!(rt; read.clauses, read.form.clauses());
    assert_eq!(rt;
        read.variables as usize,
        read.form.prefix().as_slice().len()
    );
    let mut sink = SteadySink::new(alloc);
    assert_eq!(rt; write_qdimacs(&read.form, &mut sink), Ok(()));
    assert_eq!(rt; sink.bytes(), text);
    Ok(())
}
