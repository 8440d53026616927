//! A mail hub: an SMTP session in, a log file and items in folders out.
#![tactic(auto)]

use mail_names::Bytes;
use mail_transport::{is_session, transport};
use plant_dev::{FilePlant, FilePlantFault, MemoryPlant, Plant};
use port_io::{ReaderSource, StdClock, WriterSink};
use std::alloc::AllocError;
use std::fs::File;
use std::process::ExitCode;
use std::{env, io};

/// The exit status where the hub's folder or its log can't be made, opened or locked.
const NO_FOLDER: u8 = 17;

fn run(rt: &HostRuntime) -> Result<u8, AllocError> {
    let alloc = rt.alloc();
    let mut words = Vec::new(alloc);
    if let Ok(args) = env::args(rt) {
        for word in args.skip(1) {
            words.push(word)?;
        }
    }
    let mut texts = Vec::new(alloc);
    for word in &words {
        texts.push(word.as_str())?;
    }
    let words = texts.as_slice();
    if !is_session(words) {
        // Words that are no command leave the disk as it was.
        return run_over(rt, words, &mut MemoryPlant::new(alloc, Bytes::new(alloc)));
    }
    let mut plant = match FilePlant::new(rt.clone()?, alloc, "hub") {
        Ok(plant) => plant,
        Err(FilePlantFault::NoMemory) => return Ok(2),
        Err(FilePlantFault::Failed { .. }) => return Ok(NO_FOLDER),
    };
    match locked(rt) {
        Ok(_lock) => run_over(rt, words, &mut plant),
        Err(_) => Ok(NO_FOLDER),
    }
}

// Waits until no other program has the hub's log, and keeps it from them as long as the handle lives.
fn locked(rt: &HostRuntime) -> io::Result<File> {
    let log = File::open(rt, "hub/queue.log")?;
    log.lock()?;
    Ok(log)
}

// Runs over this plant, with the program's own input, output and clock.
fn run_over<P: Plant>(rt: &HostRuntime, words: &[&str], plant: &mut P) -> Result<u8, AllocError> {
    let mut source = ReaderSource::new(rt.reader());
    let mut sink = WriterSink::new(io::writer(rt));
    let mut clock = StdClock::new(rt.clone()?);
    let status = transport(rt.alloc(), words, &mut source, &mut sink, plant, &mut clock);
    Ok(status.code())
}

fn main(rt: HostRuntime) -> ExitCode {
    match run(&rt) {
        Ok(code) => ExitCode::from(code),
        Err(_) => ExitCode::from(2),
    }
}
