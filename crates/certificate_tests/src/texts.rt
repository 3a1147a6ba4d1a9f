// The texts of certificates, read and written.
use bddl_model::CertReadFault;
use cert_text::{read_cert, write_cert};
use io_edge::{MemorySink, SinkEnd, SteadySink};
use std::alloc::Global;
use std::process::Abort;
use std::test::Fail;

const TREE: &[u8] =
    b"bddlcert 1 8\nb 0 1 1\nw 3 0 2 1 0 1 2 0 2 2\nb 0 1 2\ng\nb 0 2 1\ng\nb 0 2 1\ng\n";

const NUMBERED_TREE: &[u8] =
    b"bddlcert 2 8\nb 0 1 1 1\nw 3 0 2 1 2 0 1 2 4 0 2 2 6\nb 0 1 2 3\ng\nb 0 2 1 5\ng\nb 0 2 1 7\ng\n";

const SHARED: &[u8] =
    b"bddlcert 2 5\nw 2 9 1 2 1 9 3 4 2\nb 0 2 1 3\nb 999999999 2 1 3\nw 1 0 0 0 4\nw 0\n";

// Reads the text, and compares what is written of its nodes.
fn assert_says(rt: &impl Abort, alloc: Global, text: &[u8], written: &[u8]) {
    let mut sink = SteadySink::new(alloc);
    match read_cert(alloc, text) {
        Ok(nodes) => assert_eq!(rt; write_cert(nodes.as_slice(), &mut sink), Ok(())),
        Err(fault) => panic!(rt; "{fault:?}"),
    }
    assert_eq!(rt; sink.bytes(), written);
}

fn assert_fails(rt: &impl Abort, alloc: Global, cases: &[(&str, CertReadFault)]) {
    for (text, want) in cases {
        match read_cert(alloc, text.as_bytes()) {
            Ok(_) => panic!(rt; "read: {text}"),
            Err(fault) => assert_eq!(rt; fault, *want, "of {text}"),
        }
    }
}

#[test]
fn nodes_are_read_and_written(rt: HostRuntime) {
    assert_says(&rt, rt.alloc(), TREE, NUMBERED_TREE);
    assert_says(&rt, rt.alloc(), NUMBERED_TREE, NUMBERED_TREE);
    assert_says(&rt, rt.alloc(), SHARED, SHARED);
    assert_says(&rt, rt.alloc(), b"bddlcert 1 1\ng\n", b"bddlcert 2 1\ng\n");
}

#[test]
fn texts_without_a_header_are_told(rt: HostRuntime) {
    for text in [
        "",
        "bddlcert 1",
        "bddlcert 3 1\ng\n",
        "bddlcert 2 0\n",
        "bddlcert 1 01\ng\n",
        "bddlcert  1 1\ng\n",
        "bddlcert 1 1 \ng\n",
        "bddlcert 1 18446744073709551616\ng\n",
        "Bddlcert 1 1\ng\n",
    ] {
        assert_fails(&rt, rt.alloc(), &[(text, CertReadFault::NotHeader)]);
    }
}

#[test]
fn lines_that_are_none_are_told(rt: HostRuntime) {
    for line in [
        "\n",
        "g",
        "g \n",
        "b 0 1 1 2",
        "b 0 1 1\n",
        "b 0 1 1 2 3\n",
        "b 00 1 1 2\n",
        "b +0 1 1 2\n",
        "b 1000000000 1 1 2\n",
        "b 0 1 1 18446744073709551616\n",
        "w\n",
        "w 1\n",
        "w 1 0 1 1 2 0 1 1 3\n",
        "w 1 0 1 1 2\r\n",
        "g\r\n",
    ] {
        let mut text = String::new(rt.alloc());
        let _ = text.push_str("bddlcert 2 9\nb 0 1 1 1\n");
        let _ = text.push_str(line);
        assert_fails(
            &rt,
            rt.alloc(),
            &[(&text, CertReadFault::NotALine { node: 1 })],
        );
    }
}

#[test]
fn ends_and_counts_are_told(rt: HostRuntime) {
    assert_fails(
        &rt,
        rt.alloc(),
        &[
            ("bddlcert 2 1\n", CertReadFault::EndsEarly { node: 0 }),
            (
                "bddlcert 1 1\nb 0 1 1\n",
                CertReadFault::EndsEarly { node: 1 },
            ),
            (
                "bddlcert 2 2\nb 0 1 1 1\ng\n\n",
                CertReadFault::Unused { node: 2 },
            ),
            ("bddlcert 1 9\ng\ng\n", CertReadFault::Unused { node: 1 }),
            (
                "bddlcert 1 0\ng\n",
                CertReadFault::CountDiffers { said: 0, found: 1 },
            ),
            (
                "bddlcert 1 18446744073709551615\nb 0 1 1\ng\n",
                CertReadFault::CountDiffers {
                    said: 18446744073709551615,
                    found: 2,
                },
            ),
        ],
    );
}

#[test]
fn numbers_of_next_nodes_are_told(rt: HostRuntime) {
    assert_fails(
        &rt,
        rt.alloc(),
        &[
            (
                "bddlcert 2 2\nb 0 1 1 0\ng\n",
                CertReadFault::BadNext { node: 0 },
            ),
            (
                "bddlcert 2 3\nb 0 1 1 1\nw 2 0 1 1 2 0 1 2 3\ng\n",
                CertReadFault::BadNext { node: 1 },
            ),
            (
                "bddlcert 2 4\nb 0 1 1 2\ng\nb 0 1 1 3\ng\n",
                CertReadFault::NotReached { node: 1 },
            ),
            (
                "bddlcert 2 4\nb 0 1 1 1\nb 0 1 1 2\ng\ng\n",
                CertReadFault::NotReached { node: 3 },
            ),
        ],
    );
}

#[test]
fn a_sink_that_fails_has_a_front(rt: HostRuntime) -> Result<(), Fail> {
    let Ok(nodes) = read_cert(rt.alloc(), SHARED) else {
        panic!(&rt; "not read");
    };
    for kept in [0, 7, 100] {
        let mut sink = MemorySink::new(rt.alloc());
        sink.fail_at(1, kept)?;
        assert_eq!(rt;
            write_cert(nodes.as_slice(), &mut sink),
            Err(SinkEnd::Failed)
        );
        assert_eq!(rt;
            Some(sink.bytes()),
            SHARED.get(..(kept as usize).min(SHARED.len()))
        );
    }
    Ok(())
}

// A million nodes, in both versions.
#[test]
fn a_large_text_is_read(rt: HostRuntime) -> Result<(), Fail> {
    let mut text = String::new(rt.alloc());
    text.push_str("bddlcert 1 10000\n")?;
    for _ in 0..3333 {
        text.push_str("b 12 345 678\nw 2 12 345 678 9 10 11\ng\n")?;
    }
    text.push_str("g\n")?;
    let mut numbered = SteadySink::new(rt.alloc());
    match read_cert(rt.alloc(), text.as_bytes()) {
        Ok(nodes) => {
            assert_eq!(rt; nodes.as_slice().len(), 10000);
            assert_eq!(rt; write_cert(nodes.as_slice(), &mut numbered), Ok(()));
        }
        Err(fault) => panic!(&rt; "{fault:?}"),
    }
    assert_says(&rt, rt.alloc(), numbered.bytes(), numbered.bytes());
    Ok(())
}
