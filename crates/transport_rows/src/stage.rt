// What a script has set up.
use crate::answer::{Answer, Fault, number};
use crate::calls::{add_folder, commit, decide, organise, submit, turn};
use crate::crowd::add_crowd;
use crate::faults::{Load, add_faults};
use crate::mails::{dialogue, talk};
use hub_core::Limits;
use mail_names::{Bytes, Key};
use mail_transport::Status;
use plant_dev::MemoryPlant;
use std::alloc::Global;

/// 2026-03-01T00:00:00Z.
const FIRST_MOMENT: u64 = 1_772_323_200;

/// A plant, and the lines that no command has taken yet.
#[derive(Drop)]
pub struct Stage {
    alloc: Global,
    plant: MemoryPlant,
    limits: Limits,
    moment: u64,
    directory: Bytes,
    rules: Bytes,
    said: Bytes,
}

fn limits(words: &str) -> Result<Limits, Fault> {
    let (live, epochs) = words.split_once(' ').unwrap_or((words, ""));
    Ok(Limits {
        live: number(live)?,
        epochs: number(epochs)?,
        ..Limits::usual()
    })
}

fn folders(alloc: Global, keys: &str) -> Result<Vec<Key>, Fault> {
    let mut folders = Vec::new(alloc);
    for key in keys.split_whitespace() {
        folders.push(Key::read(alloc, key.as_bytes())?)?;
    }
    Ok(folders)
}

fn add_status(alloc: Global, status: Status, out: &mut Answer) -> Result<(), Fault> {
    let line = format!(in alloc; "{status:?}")?;
    out.line(line.as_str())
}

// Takes the lines of a text.
fn taken(alloc: Global, text: &mut Bytes) -> Result<Bytes, Fault> {
    let lines = Bytes::of(alloc, text.as_slice())?;
    *text = Bytes::new(alloc);
    Ok(lines)
}

impl Stage {
    pub fn new(alloc: Global) -> Stage {
        Stage {
            alloc,
            plant: MemoryPlant::new(alloc, Bytes::new(alloc)),
            limits: Limits::usual(),
            moment: FIRST_MOMENT,
            directory: Bytes::new(alloc),
            rules: Bytes::new(alloc),
            said: Bytes::new(alloc),
        }
    }

    // Adds a line, or sets what later commands meet, where the word does.
    fn set(&mut self, word: &str, rest: &str) -> Result<bool, Fault> {
        match word {
            "D:" => self.directory.add_line(rest.as_bytes())?,
            "R:" => self.rules.add_line(rest.as_bytes())?,
            "C:" => self.said.add_line(rest.as_bytes())?,
            "L:" => {
                self.said.add(rest.as_bytes())?;
                self.said.add(b"\n")?;
            }
            "crowd" => {
                let count = u32::try_from(number(rest)?).unwrap_or(0);
                add_crowd(self.alloc, &mut self.directory, count)?;
            }
            "limits" => self.limits = limits(rest)?,
            "moment" => self.moment = number(rest)?,
            "plant" => *self = Stage::new(self.alloc),
            _ => return Ok(false),
        }
        Ok(true)
    }

    fn session(&mut self, piece: u64, out: &mut Answer) -> Result<(), Fault> {
        let said = taken(self.alloc, &mut self.said)?;
        let piece = usize::try_from(piece).unwrap_or(1);
        let status = talk(self.alloc, &mut self.plant, self.moment, said, piece, out)?;
        add_status(self.alloc, status, out)
    }

    fn send(&mut self, envelope: &str, out: &mut Answer) -> Result<(), Fault> {
        let alloc = self.alloc;
        let message = taken(alloc, &mut self.said)?;
        let said = dialogue(alloc, envelope, &message)?;
        let mut replies = Answer::new(alloc);
        let status = talk(
            alloc,
            &mut self.plant,
            self.moment,
            said,
            4096,
            &mut replies,
        )?;
        add_status(alloc, status, out)
    }

    fn faults(&mut self, words: &str, out: &mut Answer) -> Result<(), Fault> {
        let alloc = self.alloc;
        let (calls, rest) = words.split_once(' ').unwrap_or((words, ""));
        let (gaps, keys) = rest.split_once(' ').unwrap_or((rest, ""));
        let load = Load {
            moment: self.moment,
            said: taken(alloc, &mut self.said)?,
            folders: folders(alloc, keys)?,
        };
        add_faults(alloc, &load, number(calls)?, gaps, out)
    }

    fn organise(&mut self, out: &mut Answer) -> Result<(), Fault> {
        let directory = taken(self.alloc, &mut self.directory)?;
        let rules = taken(self.alloc, &mut self.rules)?;
        let texts = (directory, rules);
        organise(self.alloc, &mut self.plant, self.limits, texts, out)
    }

    fn submit(&mut self, out: &mut Answer) -> Result<(), Fault> {
        let message = taken(self.alloc, &mut self.said)?;
        submit(self.alloc, &mut self.plant, self.limits, message, out)
    }

    fn commit(&mut self, out: &mut Answer) -> Result<(), Fault> {
        let directory = taken(self.alloc, &mut self.directory)?;
        commit(self.alloc, &mut self.plant, self.limits, &directory, out)
    }

    // Does what the word names.
    fn run(&mut self, word: &str, rest: &str, out: &mut Answer) -> Result<(), Fault> {
        let (alloc, limits, moment) = (self.alloc, self.limits, self.moment);
        match word {
            "organise" => self.organise(out),
            "session" => self.session(number(rest)?, out),
            "send" => self.send(rest, out),
            "submit" => self.submit(out),
            "commit" => self.commit(out),
            "decide" => decide(alloc, &mut self.plant, limits, rest, moment, out),
            "turn" => turn(alloc, &mut self.plant, limits, moment, out),
            "faults" => self.faults(rest, out),
            "folder" => add_folder(alloc, &mut self.plant, rest, out),
            _ => Err(Fault::NoRow),
        }
    }

    /// Follows a line of the script, and adds what it prints.
    pub fn follow(&mut self, line: &str, out: &mut Answer) -> Result<(), Fault> {
        if line.is_empty() || line.starts_with('#') {
            return out.line(line);
        }
        let (word, rest) = line.split_once(' ').unwrap_or((line, ""));
        if self.set(word, rest)? {
            return Ok(());
        }
        self.run(word, rest, out)
    }
}
