//! Examples of chosen pages.
use crate::{Job, Parity, SelectFault, Windows, read_words, select};
use dvi_doc::Doc;
use std::alloc::{AllocError, Global};
use std::test::Fail;

/// A document of empty pages with these numbers.
fn document(alloc: Global, numbers: &[i32]) -> Result<Vec<u8>, AllocError> {
    let mut bytes = Vec::new(alloc);
    bytes.extend_from_slice(b"\xf7\x02\x01\x83\x92\xc0\x1c\x3b\x00\x00\x00\x00\x03\xe8\x00")?;
    let mut back = -1;
    for number in numbers {
        let at = i32::try_from(bytes.len()).unwrap_or(0);
        bytes.push(0x8b)?;
        bytes.extend_from_slice(&number.to_be_bytes())?;
        bytes.extend_from_slice(&[0; 36])?;
        bytes.extend_from_slice(&i32::to_be_bytes(back))?;
        bytes.push(0x8c)?;
        back = at;
    }
    let post = u32::try_from(bytes.len()).unwrap_or(0);
    bytes.push(0xf8)?;
    bytes.extend_from_slice(&back.to_be_bytes())?;
    bytes.extend_from_slice(
        b"\x01\x83\x92\xc0\x1c\x3b\x00\x00\x00\x00\x03\xe8\x00\x00\x00\x00\x00\x00\x00\x00\x00\x00",
    )?;
    bytes.extend_from_slice(&u16::try_from(numbers.len()).unwrap_or(0).to_be_bytes())?;
    bytes.push(0xf9)?;
    bytes.extend_from_slice(&post.to_be_bytes())?;
    bytes.extend_from_slice(b"\x02\xdf\xdf\xdf\xdf")?;
    Ok(bytes)
}

/// What the words, which stand in a line, choose of the document.
fn chosen(alloc: Global, doc: &Doc<'_>, line: &str) -> Result<Vec<u32>, SelectFault> {
    let mut words = Vec::new(alloc);
    for word in line.split(' ') {
        let Ok(word) = String::from_str(alloc, word) else {
            return Err(SelectFault::OutOfMemory);
        };
        if words.push(word).is_err() {
            return Err(SelectFault::OutOfMemory);
        }
    }
    let job = read_words(alloc, &words);
    match &job {
        Ok(Job::Print(job)) => select(
            alloc,
            doc,
            &job.windows,
            job.parity,
            job.limit,
            job.reverse,
            job.collated,
        ),
        _ => Err(SelectFault::OutOfMemory),
    }
}

/// Words, and the places that they choose of pages with the numbers 1, 2, 2 and -1.
const CHOICES: [(&str, &[u32]); 19] = [
    ("dvips a", &[0, 1, 2, 3]),
    ("dvips a -p 2", &[1, 2, 3]),
    ("dvips a -l 2", &[0, 1]),
    ("dvips a -p 2 -l -1", &[1, 2, 3]),
    ("dvips a -p =3", &[2, 3]),
    ("dvips a -p =2 -l =2", &[1]),
    ("dvips a -l =4", &[0, 1, 2, 3]),
    ("dvips a -A", &[0, 3]),
    ("dvips a -B", &[1, 2]),
    ("dvips a -r", &[3, 2, 1, 0]),
    ("dvips a -pp 1,2", &[0, 1]),
    ("dvips a -pp -1,1:2", &[0, 1, 3]),
    ("dvips a -pp 2,2--1,1", &[0, 1, 2, 3]),
    ("dvips a -pp 2 -A", &[]),
    ("dvips a -n 1 -r", &[0]),
    ("dvips a -A -n 2 -r", &[3, 0]),
    ("dvips a -n 9", &[0, 1, 2, 3]),
    ("dvips a -C 2", &[0, 1, 2, 3, 0, 1, 2, 3]),
    ("dvips a -n 2 -r -C 2", &[1, 0, 1, 0]),
];

/// Words, and the first number that isn't there.
const ABSENT: [(&str, i64); 12] = [
    ("dvips a -p 9", 9),
    ("dvips a -l 9", 9),
    ("dvips a -p 9 -l 8", 9),
    ("dvips a -p 2 -l 1", 1),
    ("dvips a -p =0", 0),
    ("dvips a -p =5", 5),
    ("dvips a -l =-1", -1),
    ("dvips a -p =3 -l =2", 2),
    ("dvips a -pp 2-1", 1),
    ("dvips a -pp 1,8-9,7", 8),
    ("dvips a -pp 1-9,7", 9),
    ("dvips a -pp 9 -C 999", 9),
];

#[test]
fn pages_by_words(rt: HostRuntime) -> Result<(), Fail> {
    let alloc = rt.alloc();
    let bytes = document(alloc, &[1, 2, 2, -1])?;
    assert!(rt; bytes.len() < 1000);
    let doc = Doc::read(alloc, &bytes)?;
    for (line, places) in CHOICES {
        let found = chosen(alloc, &doc, line);
        assert!(rt;
            matches!(&found, Ok(found) if found.as_slice() == places),
            "{line}"
        );
    }
    for (line, number) in ABSENT {
        let found = chosen(alloc, &doc, line);
        assert!(rt;
            matches!(&found, Err(SelectFault::NoSuchPage(absent)) if *absent == number),
            "{line}"
        );
    }
    let most = select(
        alloc,
        &doc,
        &Windows::All,
        Parity::All,
        None,
        false,
        250_000,
    );
    assert!(rt; matches!(&most, Ok(most) if most.len() == 1_000_000));
    let more = select(
        alloc,
        &doc,
        &Windows::All,
        Parity::All,
        None,
        false,
        250_001,
    );
    assert!(rt; matches!(&more, Err(SelectFault::TooManyPages)));
    let none = select(
        alloc,
        &doc,
        &Windows::All,
        Parity::All,
        Some(0),
        false,
        4_000_000_000,
    );
    assert!(rt; matches!(&none, Ok(none) if none.is_empty()));
    Ok(())
}
