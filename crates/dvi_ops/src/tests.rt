//! Spellings and commands by the table of the DVI format, and the faults.

ghost use Rattle.dvi_ops.specs.View.{view};
ghost use Rattle.dvi_ops.specs.Shortest.{CanBePut};

use super::*;
use std::test::Fail;

/// What stands at the front of the bytes, as a text, and where it ends.
fn shown(rt: &HostRuntime, bytes: &[u8]) -> Result<String, Fail> {
    if bytes.is_empty() {
        return Ok(format!(in rt.alloc(); "nothing")?);
    }
    match next_cmd(bytes, 0) {
        Ok((cmd, end)) => Ok(format!(in rt.alloc(); "{cmd:?} {end}")?),
        Err(fault) => Ok(format!(in rt.alloc(); "{fault:?} {fault}")?),
    }
}

#[test]
fn commands_by_the_table(rt: HostRuntime) -> Result<(), Fail> {
    let cases: [(&[u8], &str); 37] = [
        (&[65], "Set(65) 1"),
        (&[128, 65], "Set(65) 2"),
        (&[129, 1, 0, 9], "Set(256) 3"),
        (&[130, 255, 255, 255], "Set(16777215) 4"),
        (&[131, 255, 255, 255, 255], "Set(-1) 5"),
        (
            &[132, 0, 0, 0, 2, 255, 255, 255, 255],
            "SetRule { a: 2, b: -1 } 9",
        ),
        (&[133, 200], "Put(200) 2"),
        (&[134, 1, 2], "Put(258) 3"),
        (&[135, 255, 0, 0], "Put(16711680) 4"),
        (&[136, 128, 0, 0, 0], "Put(-2147483648) 5"),
        (
            &[137, 0, 0, 0, 5, 255, 255, 255, 255],
            "PutRule { a: 5, b: -1 } 9",
        ),
        (&[138], "Nop 1"),
        (&[140, 141], "Eop 1"),
        (&[141], "Push 1"),
        (&[142], "Pop 1"),
        (&[143, 255], "Right(-1) 2"),
        (&[145, 128, 0, 0], "Right(-8388608) 4"),
        (&[147], "W0 1"),
        (&[148, 127], "W(127) 2"),
        (&[152], "X0 1"),
        (&[156, 127, 255, 255, 255], "X(2147483647) 5"),
        (&[157, 254], "Down(-2) 2"),
        (&[161], "Y0 1"),
        (&[163, 1, 0], "Y(256) 3"),
        (&[166], "Z0 1"),
        (&[169, 255, 255, 253], "Z(-3) 4"),
        (&[171], "Fnt(0) 1"),
        (&[234], "Fnt(63) 1"),
        (&[235, 255], "Fnt(255) 2"),
        (&[236, 1, 0], "Fnt(256) 3"),
        (&[237, 255, 255, 255], "Fnt(16777215) 4"),
        (&[238, 255, 255, 255, 254], "Fnt(-2) 5"),
        (&[239, 2, 7, 8, 9], "Xxx([7, 8]) 4"),
        (&[240, 0, 2, 7, 8, 9], "Xxx([7, 8]) 5"),
        (&[241, 0, 0, 1, 7, 9], "Xxx([7]) 5"),
        (&[242, 0, 0, 0, 0, 9], "Xxx([]) 5"),
        (
            &[249, 0, 0, 0, 88, 2, 223],
            "PostPost { back: 88, id: 2 } 6",
        ),
    ];
    for (bytes, want) in cases {
        assert_eq!(rt; shown(&rt, bytes)?.as_str(), want);
    }
    Ok(())
}

#[test]
fn long_commands_and_faults(rt: HostRuntime) -> Result<(), Fail> {
    let bop = [
        139, 0, 0, 0, 1, 255, 255, 255, 255, 0, 0, 0, 0, 0, 0, 0, 0, 0, 0, 0, 0, 0, 0, 0, 0, 0, 0,
        0, 0, 0, 0, 0, 0, 0, 0, 0, 0, 0, 0, 0, 9, 255, 255, 255, 255,
    ];
    let definition = [
        243, 7, 0, 0, 0, 1, 0, 10, 0, 0, 255, 255, 255, 255, 1, 2, 97, 98, 99,
    ];
    let pre = [247, 2, 1, 131, 146, 192, 28, 59, 0, 0, 0, 0, 3, 232, 1, 33];
    let post = [
        248, 0, 0, 0, 15, 1, 131, 146, 192, 28, 59, 0, 0, 0, 0, 3, 232, 0, 0, 0, 0, 0, 0, 0, 0, 0,
        1, 255, 255,
    ];
    let cases: [(&[u8], &str); 15] = [
        (
            &bop,
            "Bop { counts: [1, -1, 0, 0, 0, 0, 0, 0, 0, 9], back: -1 } 45",
        ),
        (
            &definition,
            "FntDef(Def { k: 7, checksum: 1, size: 655360, design: -1, area: 1, name: [97, 98, 99] }) 19",
        ),
        (
            &[244, 1, 0, 0, 0, 0, 1, 0, 0, 0, 2, 0, 0, 0, 3, 0, 1, 97, 9],
            "FntDef(Def { k: 256, checksum: 1, size: 2, design: 3, area: 0, name: [97] }) 18",
        ),
        (
            &[
                245, 255, 0, 0, 128, 0, 0, 0, 0, 0, 0, 2, 0, 0, 0, 3, 1, 0, 97,
            ],
            "FntDef(Def { k: 16711680, checksum: 2147483648, size: 2, design: 3, area: 1, name: [97] }) 19",
        ),
        (
            &[
                246, 255, 255, 255, 255, 0, 0, 0, 1, 0, 0, 0, 2, 0, 0, 0, 3, 0, 0,
            ],
            "FntDef(Def { k: -1, checksum: 1, size: 2, design: 3, area: 0, name: [] }) 19",
        ),
        (
            &pre,
            "Pre(Head { id: 2, num: 25400000, den: 473628672, mag: 1000, comment: [33] }) 16",
        ),
        (
            &post,
            "Post(Tail { back: 15, num: 25400000, den: 473628672, mag: 1000, tall: 0, wide: 0, depth: 1, pages: 65535 }) 29",
        ),
        (&[250], "Undefined(0) Undefined"),
        (&[255, 0], "Undefined(0) Undefined"),
        (&[128], "Short(0) Short"),
        (&[131, 0, 0, 0], "Short(0) Short"),
        (&[239, 2, 7], "Short(0) Short"),
        (&[242, 255, 255, 255, 255, 0], "Short(0) Short"),
        (&bop[..44], "Short(0) Short"),
        (&definition[..18], "Short(0) Short"),
    ];
    for (bytes, want) in cases {
        assert_eq!(rt; shown(&rt, bytes)?.as_str(), want);
    }
    one_spelling();
    one_reading();
    shortest_spelling();
    Ok(())
}

#[test]
fn passes_over_plain_commands(rt: HostRuntime) -> Result<(), Fail> {
    let plain: [(&[u8], usize); 6] = [
        (&[0], 1),
        (&[138, 138], 1),
        (&[132, 0, 0, 0, 1, 0, 0, 0, 1, 9], 9),
        (&[146, 0, 0, 0, 0], 5),
        (&[234], 1),
        (&[238, 0, 0, 0, 0], 5),
    ];
    for (bytes, end) in plain {
        assert!(rt; !bytes.is_empty());
        assert_eq!(rt; pass(bytes, 0), Some(end));
    }
    let others: [&[u8]; 6] = [&[139], &[140], &[239, 0], &[243], &[128], &[250]];
    for bytes in others {
        assert!(rt; !bytes.is_empty());
        assert_eq!(rt; pass(bytes, 0), None);
        assert!(rt; !is_nop(bytes, 0));
    }
    assert!(rt; is_nop(&[141, 138], 1));
    Ok(())
}

/// The index of numbers, each with its place among them.
fn index_of(rt: &HostRuntime, numbers: &[i32]) -> Result<NumberIndex, Fail> {
    let mut found = Numbers::with_room(rt.alloc(), numbers.len())?;
    for (place, k) in (0..).zip(numbers) {
        found.push(*k, place)?;
    }
    Ok(NumberIndex::new(found))
}

#[test]
fn numbers_of_fonts(rt: HostRuntime) -> Result<(), Fail> {
    let index = index_of(&rt, &[5, -1, i32::MAX, 0])?;
    assert_eq!(rt; index.twice(), None);
    let places = [
        (5, Some(0)),
        (-1, Some(1)),
        (i64::from(i32::MAX), Some(2)),
        (0, Some(3)),
        (7, None),
        (5 + (1 << 32), None),
    ];
    for (k, place) in places {
        assert_eq!(rt; index.place(k), place);
    }
    let index = index_of(&rt, &[3, 5, 3])?;
    assert_eq!(rt; index.twice(), Some(3));
    Ok(())
}

/// The bytes that are put for a command, and the length of its whole spelling, as a text.
fn put(rt: &HostRuntime, cmd: &Cmd<'_>) -> Result<String, Fail>
    requires { CanBePut (view cmd.now) }
{
    let mut out = CmdBytes::new();
    let len = put_cmd(cmd, &mut out);
    Ok(format!(in rt.alloc(); "{:?} {len}", out.as_slice())?)
}

#[test]
fn puts_numbers_in_few_bytes(rt: HostRuntime) -> Result<(), Fail> {
    assert_eq!(rt; put(&rt, &Cmd::Set(127))?.as_str(), "[127] 1");
    assert_eq!(rt; put(&rt, &Cmd::Set(128))?.as_str(), "[128, 128] 2");
    assert_eq!(rt;
        put(&rt, &Cmd::Set(-1))?.as_str(),
        "[131, 255, 255, 255, 255] 5"
    );
    assert_eq!(rt; put(&rt, &Cmd::Put(65))?.as_str(), "[133, 65] 2");
    assert_eq!(rt; put(&rt, &Cmd::Fnt(63))?.as_str(), "[234] 1");
    assert_eq!(rt; put(&rt, &Cmd::Fnt(64))?.as_str(), "[235, 64] 2");
    assert_eq!(rt; put(&rt, &Cmd::Fnt(65536))?.as_str(), "[237, 1, 0, 0] 4");
    assert_eq!(rt; put(&rt, &Cmd::Right(-128))?.as_str(), "[143, 128] 2");
    assert_eq!(rt; put(&rt, &Cmd::W(128))?.as_str(), "[149, 0, 128] 3");
    assert_eq!(rt; put(&rt, &Cmd::Y(-8388608))?.as_str(), "[164, 128, 0, 0] 4");
    assert_eq!(rt;
        put(&rt, &Cmd::Z(8388608))?.as_str(),
        "[170, 0, 128, 0, 0] 5"
    );
    Ok(())
}

#[test]
fn puts_long_commands(rt: HostRuntime) -> Result<(), Fail> {
    let definition = Def {
        k: 256,
        checksum: 1,
        size: 2,
        design: 3,
        area: 1,
        name: &[97, 98, 99],
    };
    assert_eq!(rt;
        put(&rt, &Cmd::FntDef(definition))?.as_str(),
        "[244, 1, 0, 0, 0, 0, 1, 0, 0, 0, 2, 0, 0, 0, 3, 1, 2, 97, 98, 99] 20"
    );
    let head = Head {
        id: 2,
        num: 25400000,
        den: 473628672,
        mag: 1000,
        comment: &[33],
    };
    assert_eq!(rt;
        put(&rt, &Cmd::Pre(head))?.as_str(),
        "[247, 2, 1, 131, 146, 192, 28, 59, 0, 0, 0, 0, 3, 232, 1] 16"
    );
    let tail = Tail {
        back: -1,
        num: 1,
        den: 2,
        mag: 3,
        tall: 4,
        wide: 5,
        depth: 6,
        pages: 7,
    };
    assert_eq!(rt;
        put(&rt, &Cmd::Post(tail))?.as_str(),
        "[248, 255, 255, 255, 255, 0, 0, 0, 1, 0, 0, 0, 2, 0, 0, 0, 3, 0, 0, 0, 4, 0, 0, 0, 5, 0, 6, 0, 7] 29"
    );
    assert_eq!(rt; put(&rt, &Cmd::Xxx(&[7, 8]))?.as_str(), "[239, 2] 4");
    assert_eq!(rt;
        put(&rt, &Cmd::PutRule { a: 5, b: -1 })?.as_str(),
        "[137, 0, 0, 0, 5, 255, 255, 255, 255] 9"
    );
    assert_eq!(rt;
        put(&rt, &Cmd::PostPost { back: 88, id: 2 })?.as_str(),
        "[249, 0, 0, 0, 88, 2] 6"
    );
    let bop = Cmd::Bop {
        counts: [1, -1, 0, 0, 0, 0, 0, 0, 0, 9],
        back: -1,
    };
    assert_eq!(rt;
        put(&rt, &bop)?.as_str(),
        "[139, 0, 0, 0, 1, 255, 255, 255, 255, 0, 0, 0, 0, 0, 0, 0, 0, 0, 0, 0, 0, 0, 0, 0, 0, 0, 0, 0, 0, 0, 0, 0, 0, 0, 0, 0, 0, 0, 0, 0, 9, 255, 255, 255, 255] 45"
    );
    Ok(())
}
