//! What `--help` and `--version` print.
ghost use Rattle.std.specs.Prelude.{◌≡◌, IfSome, length};

/// The words of all tools, and their options.
const HELP: &str = "\
texdvi: DVI documents with bitmap fonts

texdvi dvips [OPTIONS] IN          prints IN.dvi as PostScript
texdvi dvitype [OPTIONS] IN        lists the commands of IN.dvi
texdvi dvicopy [OPTIONS] IN [OUT]  copies IN.dvi without its virtual fonts
texdvi sample N                    prints a sample of N pages, 1 to 1000, to sample.ps
texdvi --help, texdvi --version    as the only word: this text, the version

A name is looked up in the current folder; - is standard input or output.

Options of dvips. A parameter stands in the option's word or is the next one.
  -p N, -l N    the first and the last page; =N counts pages from 1
  -pp LIST      the pages N, N-M or N:M, with commas between
  -n K          at most K pages
  -r            in reversed order
  -A, -B        odd pages, even pages
  -c K, -C K    each page K times; all pages K times (1 to 999)
  -x M          the magnification times 1000, in place of the document's (10 to 100000)
  -D R          pixels an inch (10 to 10000; 600)
  -X R, -Y R    pixels an inch across, down
  -S K          at most K pages a section
  -h NAME       a header file, at most 64
  -q, -N        no warnings; no structured comments
  -o NAME       the output (IN with .ps for .dvi)
  -t PAPER      letter, legal, tabloid, ledger, a3, a4 or a5 (letter)
  -T W,H        the size of the paper, as 210mm,297mm
  -O X,Y        moves the origin
  -e K          how far places may drift, in pixels (0 to 1000; 2)
  --memory=K    what a section may cost the printer (1 to 2147483647; 16000000)
  --pass=ps     passes on ps: specials

Options of dvitype and dvicopy, with one dash or two; N stands behind = or is the next word.
  -page-start=N      the first page, by its number
  -max-pages=K       at most K pages (1 to 1000000)
  -magnification=M   as -x of dvips
  -dpi=R             pixels an inch, of dvitype (10 to 10000; 300)
  -detail=D          1 lists each command, 0 the pages alone, of dvitype (1)

Status: 0 done, 1 refused, 2 wrong words, 3 not read, 4 not written, 5 no memory, 6 no words.
";

/// The version, and the toolchain with which it is proved.
const VERSION: &str = "\
texdvi 1.0
proved with rattle-kit-13f logic dac8208d650f15bf
";

/// What the words ask of the program itself: each of these two stands alone.
pub fn about_text(words: &[String]) -> Option<&'static str>
    ensures { IfSome result (λ text. length words.now ≡ 1) }
{
    match words {
        [word] => match word.as_str() {
            "--help" => Some(HELP),
            "--version" => Some(VERSION),
            _ => None,
        },
        _ => None,
    }
}
