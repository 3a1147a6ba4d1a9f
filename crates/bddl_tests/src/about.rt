// What the program tells of itself, by the requests `help` and `version`.

use crate::answers::{Answer, DOMAIN, PROBLEM, answer_of, shelf_of};
use std::alloc::Global;
use std::process::Abort;
use std::test::Fail;

// What a request of one word writes, with status 0 and no note.
fn told(rt: &impl Abort, alloc: Global, word: &[u8]) -> Result<Vec<u8>, Fail> {
    let mut shelf = shelf_of(alloc, DOMAIN, PROBLEM)?;
    let Answer { status, out, note } = answer_of(alloc, &[word], &mut shelf)?;
    assert_eq!(rt; status, 0);
    assert!(rt; note.is_empty());
    Ok(out)
}

#[test]
fn help_has_a_line_for_each_request_and_each_status(rt: HostRuntime) -> Result<(), Fail> {
    let text = told(&rt, rt.alloc(), b"help")?;
    assert!(rt; text.starts_with(b"bddl compile DOMAIN PROBLEM "));
    assert!(rt; text.ends_with(b"\n30  the steps are spent\n"));
    assert_eq!(rt; text.iter().filter(|byte| **byte == b'\n').count(), 29);
    assert_eq!(rt;
        told(&rt, rt.alloc(), b"--help")?.as_slice(),
        text.as_slice()
    );
    Ok(())
}

#[test]
fn version_has_the_name_and_the_kit(rt: HostRuntime) -> Result<(), Fail> {
    let line = b"bddl, rattle-kit-13f logic dac8208d650f15bf\n".as_slice();
    for word in [b"version".as_slice(), b"--version".as_slice()] {
        assert_eq!(rt; told(&rt, rt.alloc(), word)?.as_slice(), line);
    }
    Ok(())
}
