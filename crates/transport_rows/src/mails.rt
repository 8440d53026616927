// Sessions.
ghost use Rattle.std.specs.Prelude.{◌<◌};

use crate::answer::{Answer, Fault};
use mail_names::Bytes;
use mail_transport::{Status, transport};
use plant_dev::MemoryPlant;
use port_io::{MemoryClock, MemorySink, MemorySource};
use std::alloc::Global;

/// Runs the command `session` at a moment, on input in pieces of this length, and adds its replies to the answer.
pub fn talk(
    alloc: Global,
    plant: &mut MemoryPlant,
    moment: u64,
    said: Bytes,
    piece: usize,
    out: &mut Answer,
) -> Result<Status, Fault> {
    let mut source = MemorySource::new(said, piece.max(1), Bytes::new(alloc));
    let mut sink = MemorySink::new(alloc, Bytes::new(alloc));
    let mut clock = MemoryClock::new(vec![in alloc; moment]?);
    let words = ["session"].as_slice();
    let status = transport(alloc, words, &mut source, &mut sink, plant, &mut clock);
    out.lines("S: ", sink.bytes())?;
    Ok(status)
}

/// A dialogue that sends a message, from the first of these words to the others.
pub fn dialogue(alloc: Global, envelope: &str, message: &Bytes) -> Result<Bytes, Fault> {
    let mut said = Bytes::of(alloc, b"HELO c\r\n")?;
    let mut command = "MAIL FROM";
    for key in envelope.split_whitespace() {
        let line = format!(in alloc; "{command}:<{key}>\r\n")?;
        said.add(line.as_bytes())?;
        command = "RCPT TO";
    }
    said.add(b"DATA\r\n")?;
    said.add(message.as_slice())?;
    said.add(b".\r\nQUIT\r\n")?;
    Ok(said)
}
