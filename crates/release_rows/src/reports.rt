// Reports, printed and read.
use journal_report::{Line, Report, ReportFault, ReportHead, read_report};
use mail_names::{Bytes, NoMemory};
use std::alloc::Global;

// A line behind its mark.
fn add_line(out: &mut Bytes, line: &str) -> Result<(), NoMemory> {
    match line.strip_suffix('\r') {
        Some("") => out.add(b"|")?,
        Some(front) => {
            out.add(b"| ")?;
            out.add(front.as_bytes())?;
        }
        None => {
            out.add(b"! ")?;
            out.add(line.as_bytes())?;
        }
    }
    out.add(b"\n")
}

// The lines of a text.
fn add_text(out: &mut Bytes, text: &[u8]) -> Result<(), NoMemory> {
    let Ok(text) = str::from_utf8(text) else {
        return out.add(b"other octets than UTF-8\n");
    };
    let Some(front) = text.strip_suffix('\n') else {
        return out.add(b"no last line\n");
    };
    for line in front.split('\n') {
        add_line(out, line)?;
    }
    Ok(())
}

fn add_head(alloc: Global, out: &mut Bytes, head: &ReportHead) -> Result<(), NoMemory> {
    out.add(b"read: report ")?;
    out.add(head.name.text(alloc)?.as_slice())?;
    out.add(b" to ")?;
    out.add(head.mailbox.bytes())?;
    let moment = head.moment;
    let text = format!(in alloc; " at {moment}\n")?;
    out.add(text.as_bytes())
}

fn add_targets(alloc: Global, out: &mut Bytes, lines: &[Line]) -> Result<(), NoMemory> {
    for line in lines {
        out.add(b"read: target ")?;
        out.add(line.target.bytes())?;
        out.add(line.why.text(alloc)?.as_slice())?;
        out.add(b"\n")?;
    }
    Ok(())
}

fn add_parts(alloc: Global, out: &mut Bytes, report: &Report) -> Result<(), NoMemory> {
    add_head(alloc, out, &report.head)?;
    add_targets(alloc, out, report.lines.as_slice())?;
    out.add(b"read: original\n")?;
    add_text(out, report.original.as_slice())
}

// What is read of these octets.
fn add_read(alloc: Global, out: &mut Bytes, bytes: &[u8]) -> Result<(), NoMemory> {
    match read_report(alloc, bytes) {
        Ok(report) => add_parts(alloc, out, &report),
        Err(ReportFault::NotReport) => out.add(b"read: no report\n"),
        Err(ReportFault::NoMemory) => Err(NoMemory),
    }
}

/// Appends the text of a report, what is read of it, and what is read without its last octet.
pub fn add_report(alloc: Global, out: &mut Bytes, text: &[u8]) -> Result<(), NoMemory> {
    add_text(out, text)?;
    add_read(alloc, out, text)?;
    match text {
        [front @ .., _] => add_read(alloc, out, front),
        [] => Ok(()),
    }
}
