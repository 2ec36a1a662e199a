//! The tools and how their options begin.
ghost use Rattle.std.specs.Prelude.{◌≡◌, map};
ghost use Rattle.dv_words.specs.Tools.{fronts_of};
ghost use Rattle.dv_words.specs.Views.{front_view};

use crate::setting::Setting;

/// A tool whose words are options and file names.
#[derive(Clone, Copy, Debug, PartialEq, Eq)]
pub enum Tool {
    Dvips,
    Dvitype,
    Dvicopy,
}

/// How an option begins.
pub struct Front {
    /// What stands first in its word.
    pub text: &'static str,
    /// Whether the text is the whole word, and the parameter the next one.
    pub apart: bool,
    /// What it sets.
    pub option: Setting,
}

macro_rules! apart {
    ($text:literal, $option:ident) => {
        Front { text: $text, apart: true, option: Setting::$option }
    };
}

macro_rules! joined {
    ($text:literal, $option:ident) => {
        Front { text: $text, apart: false, option: Setting::$option }
    };
}

static DVIPS: [Front; 41] = [
    apart!("-pp", Ranges),
    joined!("-pp", Ranges),
    apart!("-p", First),
    joined!("-p", First),
    apart!("-l", Last),
    joined!("-l", Last),
    apart!("-n", Limit),
    joined!("-n", Limit),
    joined!("-r", Reverse),
    joined!("-A", Odd),
    joined!("-B", Even),
    apart!("-c", Copies),
    joined!("-c", Copies),
    apart!("-C", Collated),
    joined!("-C", Collated),
    apart!("-x", Magnification),
    joined!("-x", Magnification),
    apart!("-D", Resolution),
    joined!("-D", Resolution),
    apart!("-X", Across),
    joined!("-X", Across),
    apart!("-Y", Down),
    joined!("-Y", Down),
    apart!("-S", PerSection),
    joined!("-S", PerSection),
    apart!("-h", Header),
    joined!("-h", Header),
    joined!("-q", Quiet),
    joined!("-N", Bare),
    apart!("-o", Output),
    joined!("-o", Output),
    apart!("-t", Paper),
    joined!("-t", Paper),
    apart!("-T", PaperSize),
    joined!("-T", PaperSize),
    apart!("-O", Offset),
    joined!("-O", Offset),
    apart!("-e", Drift),
    joined!("-e", Drift),
    joined!("--memory=", Memory),
    joined!("--pass=", PassPs),
];

static DVITYPE: [Front; 20] = [
    apart!("-page-start", Start),
    joined!("-page-start=", Start),
    apart!("--page-start", Start),
    joined!("--page-start=", Start),
    apart!("-max-pages", Limit),
    joined!("-max-pages=", Limit),
    apart!("--max-pages", Limit),
    joined!("--max-pages=", Limit),
    apart!("-magnification", Magnification),
    joined!("-magnification=", Magnification),
    apart!("--magnification", Magnification),
    joined!("--magnification=", Magnification),
    apart!("-dpi", Resolution),
    joined!("-dpi=", Resolution),
    apart!("--dpi", Resolution),
    joined!("--dpi=", Resolution),
    apart!("-detail", Detail),
    joined!("-detail=", Detail),
    apart!("--detail", Detail),
    joined!("--detail=", Detail),
];

static DVICOPY: [Front; 12] = [
    apart!("-page-start", Start),
    joined!("-page-start=", Start),
    apart!("--page-start", Start),
    joined!("--page-start=", Start),
    apart!("-max-pages", Limit),
    joined!("-max-pages=", Limit),
    apart!("--max-pages", Limit),
    joined!("--max-pages=", Limit),
    apart!("-magnification", Magnification),
    joined!("-magnification=", Magnification),
    apart!("--magnification", Magnification),
    joined!("--magnification=", Magnification),
];

/// How the options of a tool begin.
pub fn fronts_of(tool: Tool) -> &'static [Front]
    ensures { map front_view result.now ≡ fronts_of tool }
{
    match tool {
        Tool::Dvips => &DVIPS,
        Tool::Dvitype => &DVITYPE,
        Tool::Dvicopy => &DVICOPY,
    }
}
