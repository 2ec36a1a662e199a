//! Examples of dimensions and specials.
use crate::{Special, dimension, read_special};
use std::test::Fail;

#[test]
fn dimensions_are_cut_to_scaled_points(rt: HostRuntime) -> Result<(), Fail> {
    let rows: [(&str, Option<i64>); 32] = [
        ("1in", Some(4_736_286)),
        ("-.5pt", Some(-32_768)),
        ("1.5sp", Some(1)),
        ("-1.5sp", Some(-1)),
        ("12", None),
        (".pt", None),
        ("1.pt", Some(65_536)),
        ("", None),
        ("-", None),
        ("pt", None),
        ("--1pt", None),
        ("+1pt", None),
        (" 1pt", None),
        ("1 pt", None),
        ("1PT", None),
        ("1ptx", None),
        ("1.2.3pt", None),
        ("0pt", Some(0)),
        ("-0pt", Some(0)),
        ("1pc", Some(786_432)),
        ("1cm", Some(1_864_679)),
        ("210mm", Some(39_158_276)),
        ("72bp", Some(4_736_286)),
        ("1157dd", Some(81_133_568)),
        ("1157cc", Some(973_602_816)),
        ("2147483sp", Some(2_147_483)),
        ("32767.999992pt", Some(2_147_483_647)),
        ("32768pt", None),
        ("-32768pt", None),
        ("9999999in", None),
        ("0.0000001pt", None),
        ("12345678sp", None),
    ];
    for (text, value) in rows {
        assert_eq!(rt; dimension(text.as_bytes()), value, "{text}");
    }
    Ok(())
}

#[test]
fn specials_by_their_keys(rt: HostRuntime) -> Result<(), Fail> {
    let rows: [(&str, Special<'_>); 26] = [
        (
            "papersize=128mm,96mm",
            Special::Paper(23_867_901, 17_900_926),
        ),
        (
            "  papersize=  1in , 1in  ",
            Special::Paper(4_736_286, 4_736_286),
        ),
        ("papersize=1in, 0in", Special::BadPaper),
        ("papersize=-1in,1in", Special::BadPaper),
        ("papersize=1in", Special::BadPaper),
        ("papersize=1in,", Special::BadPaper),
        ("papersize=,1in", Special::BadPaper),
        ("papersize=1in,1in,1in", Special::BadPaper),
        ("papersize=1 in,1in", Special::BadPaper),
        ("papersize=", Special::BadPaper),
        ("papersize =1in,1in", Special::Unknown),
        ("Papersize=1in,1in", Special::Unknown),
        (" header=a.pro", Special::Header("a.pro")),
        ("header=", Special::Unknown),
        ("header= a.pro", Special::Unknown),
        ("header=a.pro ", Special::Unknown),
        ("header=-", Special::Header("-")),
        (
            "ps:1 0 0 setrgbcolor",
            Special::Literal(b"1 0 0 setrgbcolor"),
        ),
        ("  ps: plot", Special::Literal(b" plot")),
        ("ps:", Special::Literal(b"")),
        ("ps::begin", Special::Unknown),
        ("ps: :begin", Special::Literal(b" :begin")),
        ("ps:plotfile a.ps", Special::Unknown),
        ("ps:   plotfilex", Special::Unknown),
        ("", Special::Unknown),
        ("color push", Special::Unknown),
    ];
    for (text, special) in rows {
        assert_eq!(rt; read_special(text.as_bytes()), special, "{text}");
    }
    Ok(())
}

#[test]
fn names_of_up_to_500_visible_bytes(rt: HostRuntime) -> Result<(), Fail> {
    let long = [b'a'; 501];
    assert!(rt; crate::is_file_name(&long[..500]));
    assert!(rt; !crate::is_file_name(&long));
    let rows: [(&[u8], bool); 6] = [
        (b"!", true),
        (b"~", true),
        (b" ", false),
        (b"", false),
        (b"a\x7f", false),
        (b"\xc3\xa4", false),
    ];
    for (name, accepted) in rows {
        assert_eq!(rt; crate::is_file_name(name), accepted);
    }
    Ok(())
}
