//! The program `depot`.
//!
//! It holds the numbers of standard streams that were closed, collects its words, makes the real shelf, disk, source
//! and sink, calls `depot` and ends with its status. The contract in `depot_cli` says what `depot` does. What the real
//! adapters do is trusted (`depot_outside`), and so is what this file does before the call, which runs of the program
//! test.
#![tactic(auto)]

use depot_base::Memory;
use depot_cli::{Status, Word, depot};
use depot_outside::{RealDisk, RealShelf, RealSink};
use depot_source::{Buffered, RealSource};
use std::env;
use std::fs::{File, OpenOptions};
use std::io::{self, ErrorKind};
use std::process::ExitCode;

/// A folder that is held, and never read or written.
fn held_folder(rt: &HostRuntime) -> io::Result<File> {
    OpenOptions::new().read(true).open(rt, "/")
}

/// Opens as many files as there are standard streams. A process may be started with these closed; the first file that
/// it opens then gets the number of one. If that were the journal, printed text would be written into it. While these
/// files are held, printing to a closed output fails.
fn stream_numbers(rt: &HostRuntime) -> io::Result<[File; 3]> {
    Ok([held_folder(rt)?, held_folder(rt)?, held_folder(rt)?])
}

/// The words after the program's name. If one isn't UTF-8 they are no command, so it returns none.
fn words_of(rt: &HostRuntime) -> Result<Vec<Word>, Memory> {
    let mut words = Vec::new(rt.alloc());
    match env::args(rt) {
        Ok(args) => {
            for arg in args.skip(1) {
                words.push(Word::new(arg))?;
            }
            Ok(words)
        }
        Err(error) if error.kind() == ErrorKind::InvalidData => Ok(words),
        Err(_) => Err(Memory),
    }
}

/// Runs the program on the real shelf, disk, source and sink.
fn run(rt: &HostRuntime) -> Result<Status, Memory> {
    let words = words_of(rt)?;
    let mut shelf = RealShelf::new(rt.clone()?);
    let mut disk = RealDisk::new(rt.clone()?);
    let mut input = Buffered::new(rt.alloc(), RealSource::new(rt.reader()));
    let mut out = RealSink::new(rt.clone()?);
    Ok(depot(
        rt.alloc(),
        &words,
        &mut shelf,
        &mut disk,
        &mut input,
        &mut out,
    ))
}

/// The status of a run, with which the program ends.
fn status_of(rt: &HostRuntime) -> Status {
    match run(rt) {
        Ok(status) => status,
        Err(Memory) => Status::Memory,
    }
}

fn main(rt: HostRuntime) -> ExitCode {
    let status = match stream_numbers(&rt) {
        Ok(_held) => status_of(&rt),
        Err(_) => Status::Sink,
    };
    ExitCode::from(status.number())
}
