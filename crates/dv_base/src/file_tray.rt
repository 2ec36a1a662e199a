//! The tray of real files.
ghost use Rattle.std.specs.Prelude.{◌≡◌, ◌≤◌, None, OnOk, OnErr, length};
ghost use Rattle.dv_base.specs.Causes.{Rose};

use crate::file_shelf::STANDARD;
use crate::tray::{Begun, Put, Tray, WriteFault};
use std::alloc::Global;
use std::io::{self, BufWriter, Write};
use std::rt::Files;
use std::{fs, str};

/// How many bytes are gathered before they go to the system.
const GATHERED: usize = 65_536;

/// Where the bytes of an output go.
#[derive(Drop)]
enum Sink<'a, R: Files + Print> {
    File(R::File),
    Standard(&'a R),
    /// Nothing is open.
    Closed,
}

impl<'a, R: Files + Print> Sink<'a, R> {
    /// Makes, or cuts, the file of that name.
    fn open(rt: &'a R, name: &str) -> io::Result<Sink<'a, R>> {
        if name == STANDARD {
            Ok(Sink::Standard(rt))
        } else {
            Ok(Sink::File(fs::create(rt, name)?))
        }
    }
}

impl<R: Files + Print> Write for Sink<'_, R> {
    fn write(&mut self, piece: &[u8]) -> io::Result<usize> {
        match self {
            Sink::File(file) => file.write(piece),
            Sink::Standard(rt) => rt.write_some(piece),
            Sink::Closed => Ok(0),
        }
    }

    fn flush(&mut self) -> io::Result<()> {
        match self {
            Sink::File(file) => file.flush(),
            Sink::Standard(_) | Sink::Closed => Ok(()),
        }
    }
}

/// Files of the current folder, standard output under the name `-`, and messages on standard error.
///
/// An output's file is made, or cut, only when it is begun. What is written is gathered, and goes to the system whenever 65,536 bytes
/// are together; [`FileTray::finish`] hands on the rest. A tray that is dropped hands on the rest too, but tells nobody where that
/// fails. This is the trusted edge: it tells nothing of the bytes and messages that went out.
#[derive(Drop)]
pub struct FileTray<'a, R: Files + Print + Eprint> {
    rt: &'a R,
    output: Option<BufWriter<Sink<'a, R>>>,
    begun: u64,
    last: Option<String>,
    faults: u64,
}

impl<'a, R: Files + Print + Eprint> FileTray<'a, R> {
    ghost use Rattle.dv_base.specs.FileTray.{counted, seen_of};

    pub fn new(rt: &'a R) -> FileTray<'a, R>
        ensures { seen_of result ≡ counted 0 None 0 }
    {
        FileTray {
            rt,
            output: None,
            begun: 0,
            last: None,
            faults: 0,
        }
    }

    /// Hands on what is gathered; `Err` where the system didn't take all of it. What it didn't take is given up, so that one
    /// failure is answered once.
    pub fn finish(&mut self) -> Result<(), WriteFault>
        ensures ok { OnOk result (seen_of self.new ≡ seen_of self.old) }
        ensures failed { OnErr result (Rose (seen_of self.old).faults (seen_of self.new).faults) }
        ensures later { (seen_of self.old).faults ≤ (seen_of self.new).faults }
        ensures same { seen_of self.new ≡ record (seen_of self.old) { faults = (seen_of self.new).faults } }
    {
        match &mut self.output {
            None => return Ok(()),
            Some(output) => {
                if output.flush().is_ok() {
                    return Ok(());
                }
            }
        }
        self.fail();
        Err(WriteFault)
    }

    /// Counts a fault of the output, and gives up what is gathered for it.
    fn fail(&mut self)
        ensures rose { Rose (seen_of self.old).faults (seen_of self.new).faults }
        ensures later { (seen_of self.old).faults ≤ (seen_of self.new).faults }
        ensures same { seen_of self.new ≡ record (seen_of self.old) { faults = (seen_of self.new).faults } }
    {
        if let Some(output) = self.output.take() {
            let _ = output.into_parts();
        }
        self.faults = self.faults.saturating_add(1);
    }
}

impl<R: Files + Print + Eprint> Tray for FileTray<'_, R> {
    ghost use Rattle.dv_base.specs.FileTray.{seen_of};

    ghost seen = { seen_of };

    fn begin(&mut self, alloc: Global, name: &str) -> Begun {
        if self.finish().is_err() {
            return Begun::Failed;
        }
        let Ok(copy) = String::from_str(alloc, name) else {
            return Begun::OutOfMemory;
        };
        // The room for what is gathered is taken first: a file is cut only where nothing but the file can fail.
        let Ok(mut output) = BufWriter::with_capacity(alloc, GATHERED, Sink::Closed) else {
            return Begun::OutOfMemory;
        };
        let Ok(sink) = Sink::open(self.rt, name) else {
            self.faults = self.faults.saturating_add(1);
            return Begun::Failed;
        };
        *output.get_mut() = sink;
        self.output = Some(output);
        self.begun = self.begun.saturating_add(1);
        self.last = Some(copy);
        Begun::Ready
    }

    fn write(&mut self, piece: &[u8]) -> Put {
        if let Some(output) = &mut self.output {
            match output.write(piece) {
                Ok(taken) if taken > 0 || piece.is_empty() => return Put::Took(taken),
                _ => {}
            }
        }
        self.fail();
        Put::Failed
    }

    fn say(&mut self, text: &[u8]) {
        if let Ok(line) = str::from_utf8(text) {
            let _ = self.rt.eprintln(line);
        }
    }
}
