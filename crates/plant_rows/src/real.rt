// Real files, ends and clocks.
ghost use Rattle.std.specs.Prelude.{◌<◌};

use crate::octets::{answer, answer_octets, cut};
use mail_names::{Bytes, NoMemory};
use port_io::{Clock, MemoryClock, ReaderSource, Sink, Source, StdClock, WriterSink, write_all_to};
use std::alloc::Global;
use std::fs::{self, File};
use std::io;

/// 2020-01-01T00:00:00Z.
const YEAR_2020: u64 = 1_577_836_800;

// Takes a folder away where there is one.
fn clear(rt: &HostRuntime, path: &str) -> io::Result<()> {
    if fs::exists(rt, path)? {
        fs::remove_dir_all(rt, path)?;
    }
    Ok(())
}

// Whether the system's clock is past 2020.
fn is_past(rt: &HostRuntime) -> io::Result<bool> {
    let mut clock = StdClock::new(rt.clone()?);
    Ok(clock.now() > YEAR_2020)
}

// What a clock in memory gives that has these moments, asked three times.
fn add_moments(alloc: Global, words: &str, out: &mut Bytes) -> Result<(), NoMemory> {
    let mut moments = Vec::new(alloc);
    for word in words.split_whitespace() {
        moments.push(word.parse::<u64>().unwrap_or(0))?;
    }
    let mut clock = MemoryClock::new(moments);
    let (first, second, third) = (clock.now(), clock.now(), clock.now());
    let line = format!(in alloc; "{first} {second} {third}")?;
    answer(out, line.as_str())
}

// Reads the front of a file through a source.
fn read_through(rt: &HostRuntime, path: &str, into: &mut [u8; 16]) -> io::Result<Option<usize>> {
    let mut source = ReaderSource::new(File::open(rt, path)?);
    Ok(source.read(into).ok())
}

// Writes a file through a sink.
fn write_through(rt: &HostRuntime, path: &str, text: &str) -> io::Result<bool> {
    let mut sink = WriterSink::new(File::create(rt, path)?);
    Ok(write_all_to(&mut sink, text.as_bytes()).is_ok())
}

fn add_source(rt: &HostRuntime, path: &str, out: &mut Bytes) -> Result<(), NoMemory> {
    let mut into = [0; 16];
    match read_through(rt, path, &mut into) {
        Ok(Some(count)) => match into.get(..count) {
            Some(octets) => answer_octets(out, octets),
            None => answer(out, "too many"),
        },
        _ => answer(out, "failed"),
    }
}

fn add_file(rt: &HostRuntime, path: &str, out: &mut Bytes) -> Result<(), NoMemory> {
    match fs::read(rt, path) {
        Ok(octets) => answer_octets(out, octets.as_slice()),
        Err(_) => answer(out, "failed"),
    }
}

// Changes a file or a folder.
fn change(rt: &HostRuntime, word: &str, rest: &str) -> io::Result<bool> {
    match word {
        "clear" => clear(rt, rest)?,
        "touch" => fs::write(rt, rest, b"".as_slice())?,
        "folder" => fs::create_dir_all(rt, rest)?,
        _ => return Ok(false),
    }
    Ok(true)
}

/// Follows a line on something real, where the word is one.
pub fn on_real(
    rt: &HostRuntime,
    alloc: Global,
    word: &str,
    rest: &str,
    out: &mut Bytes,
) -> Result<bool, NoMemory> {
    match word {
        "clock" => {
            let line = format!(in alloc; "{:?}", is_past(rt))?;
            answer(out, line.as_str())?;
        }
        "moments" => add_moments(alloc, rest, out)?,
        "source" => add_source(rt, rest, out)?,
        "file" => add_file(rt, rest, out)?,
        "sink" => {
            let (path, text) = cut(rest);
            let line = format!(in alloc; "{:?}", write_through(rt, path, text))?;
            answer(out, line.as_str())?;
        }
        word => match change(rt, word, rest) {
            Ok(is_done) => return Ok(is_done),
            Err(_) => answer(out, "failed")?,
        },
    }
    Ok(true)
}
