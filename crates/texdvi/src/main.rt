//! `texdvi`, the program: it hands its words, the files of the current folder and the standard streams to [`dv_top::run_tool`], hands
//! on what the run has written, and ends with the status of the outcome.
#![tactic(auto)]

ghost use Rattle.std.specs.Prelude.{map};
ghost use Rattle.std.specs.Process.{exit_status};
ghost use Rattle.std.specs.String.{string_bytes};
ghost use Rattle.dv_base.specs.FileShelf.{told_of};
ghost use Rattle.dv_base.specs.FileTray.{seen_of};
ghost use Rattle.texdvi.specs.Ends.{Ends};

mod about;

use about::about_text;
use dv_base::{FileShelf, FileTray};
use dv_top::{Outcome, run_tool};
use std::alloc::Global;
use std::process::ExitCode;
use std::rt::Files;
use std::{env, io};

/// The status where the system doesn't give the words.
const NO_WORDS: u8 = 6;

/// The words behind the program's name.
fn words(rt: &HostRuntime) -> io::Result<Vec<String>> {
    let mut words = Vec::new(rt.alloc());
    for word in env::args(rt)?.skip(1) {
        words.push(word)?;
    }
    Ok(words)
}

/// Does what the words ask for, and hands on what was written. An output that isn't taken whole is never a success.
fn run<R: Files + Input + Print + Eprint>(
    alloc: Global,
    words: &[String],
    shelf: &mut FileShelf<'_, R>,
    tray: &mut FileTray<'_, R>,
) -> ExitCode
    ensures { Ends (map string_bytes words.now) (told_of shelf.old) (told_of shelf.new) (seen_of tray.old) (seen_of tray.new) (exit_status result) }
{
    let outcome = run_tool(alloc, words, shelf, tray);
    match tray.finish() {
        Ok(()) => ExitCode::from(outcome.status()),
        Err(_) => {
            Outcome::WriteFault.say(tray);
            ExitCode::from(Outcome::WriteFault.status())
        }
    }
}

/// Prints what was asked of the program itself.
fn print(rt: &HostRuntime, text: &str) -> ExitCode {
    match rt.print(text) {
        Ok(()) => ExitCode::from(Outcome::Done.status()),
        Err(_) => ExitCode::from(Outcome::WriteFault.status()),
    }
}

fn main(rt: HostRuntime) -> ExitCode {
    let Ok(words) = words(&rt) else {
        return ExitCode::from(NO_WORDS);
    };
    if let Some(text) = about_text(&words) {
        return print(&rt, text);
    }
    let mut shelf = FileShelf::new(&rt);
    let mut tray = FileTray::new(&rt);
    run(rt.alloc(), &words, &mut shelf, &mut tray)
}
