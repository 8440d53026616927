// What an exchange told.
ghost use Rattle.std.specs.Prelude.{◌<◌};

use crate::office::ScriptOffice;
use crate::scene::Scene;
use admin_http::exchange;
use mail_names::{Bytes, NoMemory};
use port_io::{MemoryClock, MemorySink, MemorySource};
use std::alloc::Global;
use std::str;

// Adds each line that was written.
fn add_lines(alloc: Global, out: &mut Bytes, written: &[u8]) -> Result<(), NoMemory> {
    let written = str::from_utf8(written).unwrap_or("no UTF-8");
    for line in written.split_terminator("\r\n") {
        let text = format!(in alloc; "S: {line}\n")?;
        out.add(text.as_bytes())?;
    }
    Ok(())
}

// What an exchange in pieces of this length tells.
fn told(alloc: Global, scene: &Scene, piece: usize) -> Result<Bytes, NoMemory>
    requires { 0 < piece }
{
    let said = Bytes::of(alloc, scene.said.as_slice())?;
    let fails = Bytes::of(alloc, scene.source.as_slice())?;
    let mut source = MemorySource::new(said, piece, fails);
    let mut sink = MemorySink::new(alloc, Bytes::of(alloc, scene.sink.as_slice())?);
    let mut clock = MemoryClock::new(Vec::from_slice(alloc, &[7u64, 8u64])?);
    let mut office = ScriptOffice::read(alloc, scene.refused.as_slice(), scene.decided.as_slice());
    let end = exchange(alloc, &mut office, &mut source, &mut sink, &mut clock);
    let mut out = Bytes::new(alloc);
    add_lines(alloc, &mut out, sink.bytes())?;
    let text = format!(in alloc; "{end:?}\n")?;
    out.add(text.as_bytes())?;
    out.add(office.asked())?;
    Ok(out)
}

// Adds a line where pieces of this length tell something else.
fn compare(
    alloc: Global,
    scene: &Scene,
    piece: usize,
    wanted: &Bytes,
    out: &mut Bytes,
) -> Result<(), NoMemory>
    requires { 0 < piece }
{
    if told(alloc, scene, piece)?.same(wanted) {
        return Ok(());
    }
    let text = format!(in alloc; "pieces of {piece} tell something else\n")?;
    out.add(text.as_bytes())
}

/// Adds what an exchange tells, in pieces of this length or of several.
pub fn tell(
    alloc: Global,
    scene: &Scene,
    piece: Option<usize>,
    out: &mut Bytes,
) -> Result<(), NoMemory> {
    let most = match piece {
        Some(piece) => piece.max(1),
        None => 4096,
    };
    let wanted = told(alloc, scene, most)?;
    out.add(wanted.as_slice())?;
    if piece.is_none() {
        compare(alloc, scene, 1, &wanted, out)?;
        compare(alloc, scene, 7, &wanted, out)?;
    }
    Ok(())
}
