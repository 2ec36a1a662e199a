//! Examples of words.
use crate::{Job, Parity, PrintJob, Window, Windows, WordFault, read_words};
use std::alloc::Global;
use std::test::Fail;

/// Reads words that stand in a line with single spaces between.
fn read(alloc: Global, line: &str) -> Result<Job, WordFault> {
    let mut words = Vec::new(alloc);
    for word in line.split(' ') {
        let Ok(word) = String::from_str(alloc, word) else {
            return Err(WordFault::OutOfMemory);
        };
        if words.push(word).is_err() {
            return Err(WordFault::OutOfMemory);
        }
    }
    read_words(alloc, &words)
}

/// The index of the first wrong word; `None` where the words are accepted.
fn wrong(alloc: Global, line: &str) -> Result<Option<usize>, Fail> {
    match read(alloc, line) {
        Ok(_) => Ok(None),
        Err(WordFault::Bad { index }) => Ok(Some(index)),
        Err(WordFault::OutOfMemory) => Err(Fail::from("no memory")),
    }
}

/// The job of dvips.
fn printed(alloc: Global, line: &str) -> Result<PrintJob, Fail> {
    match read(alloc, line) {
        Ok(Job::Print(job)) => Ok(job),
        _ => Err(Fail::from("no job of dvips")),
    }
}

/// A row: words that stand in a line, and the index of the first wrong one; `None` where they are accepted.
type Row = (&'static str, Option<usize>);

const LISTS: [Row; 60] = [
    ("", Some(0)),
    ("dvi a", Some(0)),
    ("Dvips a", Some(0)),
    ("dvips", Some(1)),
    ("dvips a", None),
    ("dvips -", None),
    ("dvips ä", Some(1)),
    ("dvips a ", Some(2)),
    ("dvips a b", Some(2)),
    ("dvips -Z a", Some(1)),
    ("dvips -i a", Some(1)),
    ("dvips -E a", Some(1)),
    ("dvips -p", Some(2)),
    ("dvips -p -1 a", None),
    ("dvips a -p=-1", None),
    ("dvips -p=2 -p 3 a", None),
    ("dvips -p +1 a", Some(2)),
    ("dvips -p -l 1 a", Some(2)),
    ("dvips -p== a", Some(1)),
    ("dvips -p 2147483647 -l -2147483648 a", None),
    ("dvips -p 2147483648 a", Some(2)),
    ("dvips -l-2147483649 a", Some(1)),
    ("dvips -p 00000000001 a", Some(2)),
    ("dvips -pp 1 -p 2", Some(3)),
    ("dvips -p 1 -pp 2", Some(3)),
    ("dvips -l 1 -pp2", Some(3)),
    ("dvips -pp1,2-3,-4:-5 -pp 6 a", None),
    ("dvips -pp 1,,2 a", Some(2)),
    ("dvips -pp1, a", Some(1)),
    ("dvips -pp 1-2-3 a", Some(2)),
    ("dvips -pp=1 a", Some(1)),
    ("dvips -pp 1--2 a", None),
    ("dvips -r -q -N -A -r -A a", None),
    ("dvips -r0 a", Some(1)),
    ("dvips -A -B a", Some(2)),
    ("dvips -B -B -A a", Some(3)),
    ("dvips -o", Some(2)),
    ("dvips -o -x a", None),
    ("dvips -ox a -oy", None),
    ("dvips -oä a", Some(1)),
    ("dvips -h - a", None),
    ("dvips -t a4 -T1in,2in -tletter a", None),
    ("dvips -ta6 a", Some(1)),
    ("dvips -T 1in,0in a", Some(2)),
    ("dvips -T-1in,1in a", Some(1)),
    ("dvips -T 1in, a", Some(2)),
    ("dvips -O -1in,0in -O0pt,0pt a", None),
    ("dvips -O 1in a", Some(2)),
    ("dvips -O1in,1in,1in a", Some(1)),
    ("dvips --memory 5 a", Some(1)),
    ("dvips --memory= a", Some(1)),
    ("dvips --pass=ps --pass=ps a", None),
    ("dvips --pass=pc a", Some(1)),
    ("dvips -page-start 1 a", Some(1)),
    ("sample", Some(1)),
    ("sample 1", None),
    ("sample 1000", None),
    ("sample 0", Some(1)),
    ("sample 1001", Some(1)),
    ("sample 1 1", Some(2)),
];

const LISTS_OF_LONG_OPTIONS: [Row; 18] = [
    ("dvitype", Some(1)),
    ("dvitype a", None),
    ("dvitype a b", Some(2)),
    ("dvitype -page-start 1 --page-start=-2 a", None),
    ("dvitype -page-start", Some(2)),
    ("dvitype --page-start= a", Some(1)),
    ("dvitype -page-start=2147483648 a", Some(1)),
    ("dvitype --page-start -2147483649 a", Some(2)),
    ("dvitype ---page-start 1 a", Some(1)),
    ("dvitype -page-start1 a", Some(1)),
    ("dvitype -page-start==1 a", Some(1)),
    ("dvitype -p 1 a", Some(1)),
    ("dvicopy", Some(1)),
    ("dvicopy a b", None),
    ("dvicopy a -page-start 1 b --max-pages=2", None),
    ("dvicopy a b c", Some(3)),
    ("dvicopy -dpi 300 a", Some(1)),
    ("dvicopy --detail=1 a", Some(1)),
];

#[test]
fn first_wrong_words(rt: HostRuntime) -> Result<(), Fail> {
    let alloc = rt.alloc();
    assert_eq!(rt;
        read_words(alloc, &[]).err(),
        Some(WordFault::Bad { index: 0 })
    );
    for (line, index) in LISTS {
        assert_eq!(rt; wrong(alloc, line)?, index, "{line}");
    }
    for (line, index) in LISTS_OF_LONG_OPTIONS {
        assert_eq!(rt; wrong(alloc, line)?, index, "{line}");
    }
    Ok(())
}

/// Tools and options that take a number, what stands between option and number in one word, and the least number, the greatest, and
/// those outside.
const NUMBERS: [(&str, &str, &str, [i64; 4]); 20] = [
    ("dvips", "-n", "", [1, 1_000_000, 0, 1_000_001]),
    ("dvips", "-c", "", [1, 999, 0, 1_000]),
    ("dvips", "-C", "", [1, 999, 0, 1_000]),
    ("dvips", "-x", "", [10, 100_000, 9, 100_001]),
    ("dvips", "-D", "", [10, 10_000, 9, 10_001]),
    ("dvips", "-X", "", [10, 10_000, 9, 10_001]),
    ("dvips", "-Y", "", [10, 10_000, 9, 10_001]),
    ("dvips", "-S", "", [1, 1_000_000, 0, 1_000_001]),
    ("dvips", "-e", "", [0, 1_000, -1, 1_001]),
    ("dvitype", "-max-pages", "=", [1, 1_000_000, 0, 1_000_001]),
    ("dvitype", "--max-pages", "=", [1, 1_000_000, 0, 1_000_001]),
    ("dvitype", "-dpi", "=", [10, 10_000, 9, 10_001]),
    ("dvitype", "--dpi", "=", [10, 10_000, 9, 10_001]),
    ("dvitype", "-magnification", "=", [10, 100_000, 9, 100_001]),
    ("dvitype", "--magnification", "=", [10, 100_000, 9, 100_001]),
    ("dvitype", "-detail", "=", [0, 1, -1, 2]),
    ("dvitype", "--detail", "=", [0, 1, -1, 2]),
    ("dvicopy", "-max-pages", "=", [1, 1_000_000, 0, 1_000_001]),
    ("dvicopy", "--magnification", "=", [10, 100_000, 9, 100_001]),
    (
        "dvicopy",
        "-page-start",
        "=",
        [-2_147_483_648, 2_147_483_647, -2_147_483_649, 2_147_483_648],
    ),
];

#[test]
fn numbers_in_their_ranges(rt: HostRuntime) -> Result<(), Fail> {
    let alloc = rt.alloc();
    for (tool, option, sign, [low, high, below, above]) in NUMBERS {
        for (number, joined, apart) in [
            (low, None, None),
            (high, None, None),
            (below, Some(1), Some(2)),
            (above, Some(1), Some(2)),
        ] {
            let line = format!(in alloc; "{tool} {option}{sign}{number} a")?;
            assert_eq!(rt; wrong(alloc, &line)?, joined, "{line}");
            let line = format!(in alloc; "{tool} {option} {number} a")?;
            assert_eq!(rt; wrong(alloc, &line)?, apart, "{line}");
        }
        let line = format!(in alloc; "{tool} {option} {low} a {option} {high}")?;
        assert_eq!(rt; wrong(alloc, &line)?, None, "{line}");
        let line = format!(in alloc; "{tool} a {option}")?;
        assert_eq!(rt; wrong(alloc, &line)?, Some(3), "{line}");
    }
    for (number, index) in [
        (0, Some(1)),
        (1, None),
        (2_147_483_647, None),
        (2_147_483_648_u32, Some(1)),
    ] {
        assert_eq!(rt;
            wrong(alloc, &format!(in alloc; "dvips --memory={number} a")?)?,
            index,
            "{number}"
        );
    }
    Ok(())
}

#[test]
fn up_to_64_headers(rt: HostRuntime) -> Result<(), Fail> {
    let alloc = rt.alloc();
    let mut line = String::from_str(alloc, "dvips a")?;
    for _ in 0..64 {
        line.push_str(" -h b")?;
    }
    assert_eq!(rt; printed(alloc, &line)?.headers.as_slice().len(), 64);
    line.push_str(" -hb")?;
    assert_eq!(rt; wrong(alloc, &line)?, Some(130));
    Ok(())
}

/// Whether the job is what dvips does where only an input is named.
fn has_defaults(job: &PrintJob) -> bool {
    job.limit.is_none()
        && !job.reverse
        && job.parity == Parity::All
        && job.copies == 1
        && job.collated == 1
        && job.mag.is_none()
        && job.dpi == (600, 600)
        && job.per_section.is_none()
        && job.headers.as_slice().is_empty()
        && !job.quiet
        && job.comments
        && job.paper.is_none()
        && job.offset == (0, 0)
        && job.drift == 2
        && job.memory == 16_000_000
        && !job.pass_ps
        && matches!(&job.windows, Windows::All)
}

const ALL_OPTIONS: &str =
    "dvips -n 7 -r -B -c 2 -C3 -x 500 -S 9 -h x -q -N -o - -e1 --memory=5 --pass=ps -h x -t a4 -T 1in,2in -O -1sp,2sp b.dvi";

/// Whether the job is that of all options.
fn has_all_options(job: &PrintJob) -> bool {
    job.limit == Some(7)
        && job.reverse
        && job.parity == Parity::Even
        && job.copies == 2
        && job.collated == 3
        && job.mag == Some(500)
        && job.per_section == Some(9)
        && job.headers.as_slice().len() == 2
        && job.quiet
        && !job.comments
        && job.paper == Some((4_736_286, 9_472_573))
        && job.offset == (-1, 2)
        && job.drift == 1
        && job.memory == 5
        && job.pass_ps
}

#[test]
fn jobs_of_dvips(rt: HostRuntime) -> Result<(), Fail> {
    let alloc = rt.alloc();
    assert!(rt; has_defaults(&printed(alloc, "dvips a")?));
    assert!(rt; has_all_options(&printed(alloc, ALL_OPTIONS)?));
    let names = [
        ("dvips a", "a.dvi", "a.ps"),
        ("dvips -", "-", "-"),
        ("dvips a.dvi.dvi -o x", "a.dvi.dvi", "x"),
        ("dvips .dvi", ".dvi", ".ps"),
        ("dvips a.DVI", "a.DVI.dvi", "a.DVI.ps"),
    ];
    for (line, input, output) in names {
        let job = printed(alloc, line)?;
        assert!(rt;
            job.input.as_str() == input && job.output.as_str() == output,
            "{line}"
        );
    }
    let resolutions = [
        ("dvips a -D 300", (300, 300)),
        ("dvips a -X 300", (300, 600)),
        ("dvips a -Y 300", (600, 300)),
        ("dvips a -D 600 -X 300", (300, 600)),
        ("dvips a -X 300 -D 600", (600, 600)),
        ("dvips a -X300 -Y100 -X200", (200, 100)),
    ];
    for (line, dpi) in resolutions {
        assert!(rt; printed(alloc, line)?.dpi == dpi, "{line}");
    }
    Ok(())
}

/// Whether the words choose one window, and it is this.
fn is_one(windows: &Windows, wanted: (Option<i64>, Option<i64>, bool)) -> bool {
    match windows {
        Windows::One {
            first,
            last,
            physical,
        } => (*first, *last, *physical) == wanted,
        _ => false,
    }
}

/// Whether the words choose several windows, and they are these.
fn are_many(windows: &Windows, wanted: &[Window]) -> bool {
    match windows {
        Windows::Many(list) => list.as_slice() == wanted,
        _ => false,
    }
}

#[test]
fn windows_of_dvips(rt: HostRuntime) -> Result<(), Fail> {
    let alloc = rt.alloc();
    let ones = [
        ("dvips a -p 2", (Some(2), None, false)),
        ("dvips a -l=2", (None, Some(2), true)),
        ("dvips a -p -2 -l =3", (Some(-2), Some(3), true)),
        ("dvips a -p =2 -l 3", (Some(2), Some(3), true)),
        ("dvips a -p =2 -p 4 -l 3", (Some(4), Some(3), false)),
    ];
    for (line, window) in ones {
        assert!(rt; is_one(&printed(alloc, line)?.windows, window), "{line}");
    }
    let many = [
        Window {
            first: -1,
            last: -1,
        },
        Window { first: 1, last: 2 },
        Window {
            first: -3,
            last: -2,
        },
    ];
    assert!(rt;
        are_many(
            &printed(alloc, "dvips -pp -1,1:2 -pp -3--2 a")?.windows,
            &many
        )
    );
    Ok(())
}

/// Whether the words ask dvitype for this.
fn lists(
    alloc: Global,
    line: &str,
    start: Option<i64>,
    most: u32,
    dpi: u32,
    mag: Option<u32>,
    detail: u8,
) -> bool {
    let job = read(alloc, line);
    match &job {
        Ok(Job::List(job)) => {
            job.input.as_str() == "a.dvi"
                && job.start == start
                && job.most == most
                && job.dpi == dpi
                && job.mag == mag
                && job.detail == detail
        }
        _ => false,
    }
}

/// Whether the words ask dvicopy for this.
fn copies(
    alloc: Global,
    line: &str,
    input: &str,
    output: &str,
    start: Option<i64>,
    most: u32,
) -> bool {
    let job = read(alloc, line);
    match &job {
        Ok(Job::Copy(job)) => {
            job.input.as_str() == input
                && job.output.as_str() == output
                && job.start == start
                && job.most == most
                && job.mag.is_none()
        }
        _ => false,
    }
}

/// Whether the words ask for a sample of so many pages.
fn samples(alloc: Global, line: &str, wanted: u32) -> bool {
    let job = read(alloc, line);
    match &job {
        Ok(Job::Sample { pages }) => *pages == wanted,
        _ => false,
    }
}

#[test]
fn jobs_of_the_other_tools(rt: HostRuntime) -> Result<(), Fail> {
    let alloc = rt.alloc();
    assert!(rt; lists(alloc, "dvitype a", None, 1_000_000, 300, None, 1));
    let line = "dvitype -page-start=-1 --max-pages 3 -dpi 600 --magnification=10 a --detail=0";
    assert!(rt; lists(alloc, line, Some(-1), 3, 600, Some(10), 0));
    assert!(rt; copies(alloc, "dvicopy -", "-", "-", None, 1_000_000));
    assert!(rt;
        copies(
            alloc,
            "dvicopy a --page-start=0 b -max-pages 2",
            "a.dvi",
            "b.dvi",
            Some(0),
            2
        )
    );
    assert!(rt; samples(alloc, "sample 12", 12));
    Ok(())
}
