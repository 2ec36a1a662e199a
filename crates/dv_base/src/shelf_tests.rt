//! Shelves and trays: what they give, what they take, and where they were told to fail.
ghost use Rattle.std.specs.Prelude.{◌<◌, ◌≤◌, IfOk};
ghost use Rattle.dv_base.specs.MemTray.{seen_of};

use crate::{Begun, FileShelf, FileTray, Got, MemShelf, MemTray, Put, Shelf, Tray, write_all};
use std::alloc::Global;
use std::fs;
use std::test::Fail;

/// What an answer comes to: its bytes, or a word for it.
fn words(got: &Got) -> &[u8] {
    match got {
        Got::Bytes(bytes) => bytes.as_slice(),
        Got::Absent => b"(absent)",
        Got::TooLong => b"(too long)",
        Got::Failed => b"(failed)",
        Got::OutOfMemory => b"(out of memory)",
    }
}

#[test]
fn shelf_gives(rt: HostRuntime) -> Result<(), Fail> {
    let alloc = rt.alloc();
    let mut shelf = MemShelf::new(alloc);
    for (name, bytes) in [("a.tfm", "old"), ("b", ""), ("a.tfm", "newer")] {
        shelf.add(name, bytes.as_bytes())?;
    }
    shelf.fail_at(3)?;
    shelf.fail_at(6)?;
    for (call, name, limit, wanted) in [
        (1, "a.tfm", 5, "newer"),
        (2, "a.tfm", 4, "(too long)"),
        (3, "a.tfm", 5, "(failed)"),
        (4, "b", 0, ""),
        (5, "a.tf", 9, "(absent)"),
        (6, "a.tf", 9, "(failed)"),
        (7, "a.tfm", 6, "newer"),
    ] {
        let got = shelf.get(alloc, name, limit);
        assert_eq!(rt; words(&got), wanted.as_bytes(), "call {call}");
    }
    Ok(())
}

/// A tray for 9 bytes, of which each write takes at most `chunk` and the write `fails` takes none; its output has begun.
fn tray(alloc: Global, chunk: usize, fails: u32) -> Result<MemTray, Fail>
    requires { 1 ≤ chunk }
    ensures { IfOk result (λ tray. 0 < (seen_of tray).begun) }
{
    let mut tray = MemTray::new(alloc, 9, 9)?;
    tray.chunk(chunk);
    tray.fail_at(fails)?;
    match tray.begin(alloc, "out.ps") {
        Begun::Ready => Ok(tray),
        _ => Err("an output".into()),
    }
}

#[test]
fn tray_takes(rt: HostRuntime) -> Result<(), Fail> {
    let alloc = rt.alloc();
    // The most bytes of one write, the write that fails (0: none does), what is taken, and whether that is all.
    for (chunk, fails, taken, is_all) in [
        (1, 0, "textblock", true),
        (2, 0, "textblock", true),
        (3, 0, "textblock", true),
        (7, 0, "textblock", true),
        (9, 1, "", false),
        (3, 1, "", false),
        (3, 2, "tex", false),
        (3, 3, "textbl", false),
        (3, 4, "textblock", true),
        (7, 2, "textblo", false),
    ] {
        let mut tray = tray(alloc, chunk, fails)?;
        let answer = write_all(&mut tray, b"textblock");
        assert_eq!(rt; answer.is_ok(), is_all, "write {fails} by {chunk}");
        assert_eq!(rt;
            tray.written(),
            taken.as_bytes(),
            "write {fails} by {chunk}"
        );
        assert_eq!(rt; tray.name(), Some("out.ps"));
    }
    Ok(())
}

#[test]
fn tray_fills(rt: HostRuntime) -> Result<(), Fail> {
    let alloc = rt.alloc();
    for (front, piece, answer) in [
        ("", "abcdefg", Put::Took(5)),
        ("abcdefg", "hi", Put::Took(2)),
        ("abcdefg", "hij", Put::Failed),
        ("abcdefghi", "", Put::Took(0)),
    ] {
        let mut tray = tray(alloc, 5, 0)?;
        assert!(rt; write_all(&mut tray, front.as_bytes()).is_ok());
        assert_eq!(rt; tray.write(piece.as_bytes()), answer, "{front} and {piece}");
    }
    Ok(())
}

#[test]
fn tray_says(rt: HostRuntime) -> Result<(), Fail> {
    let alloc = rt.alloc();
    let mut tray = tray(alloc, 5, 0)?;
    assert_eq!(rt; tray.begin(alloc, "second.ps"), Begun::Failed);
    assert_eq!(rt; tray.name(), Some("out.ps"));
    // Nine bytes of messages, their line ends counted; one for which there is no room is dropped.
    for text in ["one", "", "five", "two"] {
        tray.say(text.as_bytes());
    }
    assert_eq!(rt; tray.said(), &b"one\n\ntwo\n"[..]);
    Ok(())
}

#[test]
fn files_come_back(rt: HostRuntime) -> Result<(), Fail> {
    let alloc = rt.alloc();
    let name = "dv_base_shelf_tests.out";
    let letters = [b'x'; 70_000];
    let mut tray = FileTray::new(&rt);
    let mut shelf = FileShelf::new(&rt);
    // An output of a name that is there already takes its place. The second text is longer than what is gathered and than what is
    // read at once.
    for count in [13, 70_000, 6] {
        let text = &letters[..count];
        assert_eq!(rt; tray.begin(alloc, name), Begun::Ready);
        assert!(rt; write_all(&mut tray, text).is_ok());
        assert!(rt; tray.finish().is_ok());
        let got = shelf.get(alloc, name, count as u32);
        assert!(rt; words(&got) == text, "a text of {count} bytes");
    }
    assert_eq!(rt; tray.begin(alloc, "no/such/folder"), Begun::Failed);
    let long_name = str::from_utf8(&letters[..300]).unwrap_or("");
    for (name, limit, wanted) in [
        (name, 6, "xxxxxx"),
        (name, 5, "(too long)"),
        ("no/such/folder", 6, "(absent)"),
        ("", 6, "(absent)"),
        ("..", 6, "(failed)"),
        ("dv_base_shelf_tests.out/x", 6, "(failed)"),
        ("nul\0byte", 6, "(failed)"),
        (long_name, 6, "(failed)"),
    ] {
        let got = shelf.get(alloc, name, limit);
        assert_eq!(rt; words(&got), wanted.as_bytes(), "{name} to {limit}");
    }
    fs::remove_file(&rt, name)?;
    Ok(())
}

#[test]
fn full_device_is_a_fault(rt: HostRuntime) -> Result<(), Fail> {
    let alloc = rt.alloc();
    let mut tray = FileTray::new(&rt);
    assert!(rt; tray.finish().is_ok(), "nothing was begun");
    // What is written is gathered, so that the failure shows when it is handed on; it is answered once.
    assert_eq!(rt; tray.begin(alloc, "/dev/full"), Begun::Ready);
    assert_eq!(rt; tray.write(b"a text"), Put::Took(6));
    assert!(rt; tray.finish().is_err());
    assert!(rt; tray.finish().is_ok());
    assert_eq!(rt; tray.write(b"more"), Put::Failed);
    Ok(())
}
