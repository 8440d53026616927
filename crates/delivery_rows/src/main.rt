//! When items are tried, told of as late and given up, and when submissions are forgotten, row by row.
//!
//! A row on standard input is a call and its numbers. It is printed back, and its answer behind it. To add a row, write its
//! answer from the times that are meant, and not from a run.
//!
//! - `slot SECONDS` and `age_of SECONDS`.
//! - `is_due_again MADE SLOT MOMENT`, `tried_until MADE` and `is_old ACCEPTED MOMENT`.
//! - A line that is empty or begins with `#` is only printed back.
#![tactic(auto)]

use delivery_times::{age_of, is_due_again, is_old, slot, tried_until};
use mail_names::{LAST_MOMENT, NoMemory};
use std::alloc::Global;
use std::io;

// The numbers of a row; what is no number is 0.
fn numbers(alloc: Global, text: &str) -> Result<Vec<u64>, NoMemory> {
    let mut numbers = Vec::new(alloc);
    for word in text.split(' ') {
        numbers.push(word.parse::<u64>().unwrap_or(0))?;
    }
    Ok(numbers)
}

fn answer(alloc: Global, call: &str, numbers: &[u64]) -> Result<String, NoMemory> {
    let text = match (call, numbers) {
        ("slot", [seconds]) => {
            let slot = slot(*seconds);
            format!(in alloc; "{slot}")?
        }
        ("age_of", [seconds]) => {
            let age = age_of(*seconds);
            format!(in alloc; "{age:?}")?
        }
        ("is_due_again", [made, last, moment]) => {
            let due = is_due_again(*made, *last, *moment);
            format!(in alloc; "{due}")?
        }
        ("tried_until", [made]) => {
            let made = *made;
            if made > LAST_MOMENT {
                format!(in alloc; "no moment")?
            } else {
                let until = tried_until(made);
                format!(in alloc; "{until}")?
            }
        }
        ("is_old", [accepted, moment]) => {
            let old = is_old(*accepted, *moment);
            format!(in alloc; "{old}")?
        }
        _ => format!(in alloc; "no row")?,
    };
    Ok(text)
}

fn answered(alloc: Global, line: &str) -> Result<String, NoMemory> {
    let (call, rest) = line.split_once(' ').unwrap_or((line, ""));
    let numbers = numbers(alloc, rest)?;
    answer(alloc, call, numbers.as_slice())
}

fn main(rt: HostRuntime) -> io::Result<()> {
    let alloc = rt.alloc();
    for line in rt.lines(alloc) {
        let line = line?;
        println!(rt; "{line}")?;
        if line.is_empty() || line.starts_with('#') {
            continue;
        }
        match answered(alloc, line.as_str()) {
            Ok(text) => println!(rt; "= {text}")?,
            Err(NoMemory) => println!(rt; "! no memory")?,
        }
    }
    Ok(())
}
