//! Texts that fail, so that no text passes by its form alone.

use super::check_text;
use super::text_fault::Fault;
use std::alloc::Global;
use std::test::Fail;
use vm_session::Status;

/// Returns the fault of a text, if it fails.
fn fault(alloc: Global, text: &str) -> Option<Fault> {
    check_text(alloc, text).err()
}

#[test]
fn other_texts_fail(rt: HostRuntime) -> Result<(), Fail> {
    let alloc = rt.alloc();
    assert_eq!(rt; fault(alloc, ""), Some(Fault::NoScript));
    assert_eq!(rt; fault(alloc, "> stat\nOK\n"), Some(Fault::NoScript));
    assert_eq!(rt; fault(alloc, "== run"), Some(Fault::NoForm));
    assert_eq!(rt; fault(alloc, "== run\nstat\n"), Some(Fault::NoForm));
    assert_eq!(rt; fault(alloc, "== run\n>stat\n"), Some(Fault::NoForm));
    assert_eq!(rt; fault(alloc, "== go\n"), Some(Fault::Ended(Status::Usage)));
    Ok(())
}

/// A text fails if a reply is missing, is one too many or differs by a digit, in its last script too.
#[test]
fn other_replies_fail(rt: HostRuntime) -> Result<(), Fail> {
    for text in [
        "== run\n> vmo_create v1 1\n",
        "== run\nOK\n",
        "== run\n> vmo_create v1 1\nOK\nOK\n",
        "== run\n\n== run\n> vmo_create v1 1\nOK\n> vmo_size v1\nOK 4097\n",
        "== run\ntree hidden=1 rows=0 frame_rows=0\n",
    ] {
        assert!(rt; fault(rt.alloc(), text).is_some(), "of {text}");
    }
    Ok(())
}
