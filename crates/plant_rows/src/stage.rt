// What a script has set up.
use crate::logs::{damage, entries, images, on_log, open, records};
use crate::octets::{answer, cut, read_octets};
use crate::plants::follow;
use crate::real::on_real;
use mail_names::{Bytes, Key, NoMemory};
use plant_dev::{Failing, FilePlant, MemoryPlant};
use queue_disk::Log;
use std::alloc::Global;

/// The plants, and the log that is open over the one in memory.
#[derive(Drop)]
pub struct Stage {
    alloc: Global,
    memory: MemoryPlant,
    files: Option<FilePlant<HostRuntime>>,
    log: Option<Log>,
}

fn read_failing(word: &str) -> Failing {
    match word {
        "absent" => Failing::Absent,
        "stored" => Failing::Stored,
        _ => Failing::Never,
    }
}

// Which calls fail: a digit for each.
fn read_calls(alloc: Global, digits: &str) -> Result<Bytes, NoMemory> {
    let mut calls = Bytes::new(alloc);
    for digit in digits.as_bytes() {
        calls.add(&[u8::from(*digit == b'1')])?;
    }
    Ok(calls)
}

impl Stage {
    pub fn new(alloc: Global) -> Stage {
        Stage {
            alloc,
            memory: MemoryPlant::new(alloc, Bytes::new(alloc)),
            files: None,
            log: None,
        }
    }

    fn begin(&mut self, plant: MemoryPlant) {
        self.memory = plant;
        self.files = None;
        self.log = None;
    }

    fn open_files(
        &mut self,
        rt: &HostRuntime,
        folder: &str,
        out: &mut Bytes,
    ) -> Result<(), NoMemory> {
        self.files = None;
        let Ok(handle) = rt.clone() else {
            return Err(NoMemory);
        };
        match FilePlant::new(handle, self.alloc, folder) {
            Ok(plant) => self.files = Some(plant),
            Err(fault) => {
                let line = format!(in self.alloc; "{fault:?}")?;
                answer(out, line.as_str())?;
            }
        }
        Ok(())
    }

    fn fail_folder(&mut self, rest: &str) -> Result<(), NoMemory> {
        let (key, how) = cut(rest);
        match Key::read(self.alloc, key.as_bytes()) {
            Ok(folder) => self.memory.fail_folder(&folder, read_failing(how)),
            Err(_) => Ok(()),
        }
    }

    fn crash(&mut self, rest: &str, out: &mut Bytes) -> Result<(), NoMemory> {
        let (pick, line) = cut(rest);
        let mut image = self.memory.crash(pick.parse::<u64>().unwrap_or(0))?;
        follow(self.alloc, &mut image, line, out)
    }

    // Begins with a plant, or plans what fails, where the word does.
    fn set(
        &mut self,
        rt: &HostRuntime,
        word: &str,
        rest: &str,
        out: &mut Bytes,
    ) -> Result<bool, NoMemory> {
        match word {
            "memory" => {
                let file = read_octets(self.alloc, rest)?;
                self.begin(MemoryPlant::new(self.alloc, file));
            }
            "records" => {
                let plant = records(self.alloc, rest.parse::<u64>().unwrap_or(0))?;
                self.begin(plant);
            }
            "files" => self.open_files(rt, rest, out)?,
            "fail" => {
                let calls = read_calls(self.alloc, rest)?;
                self.memory.fail_calls(calls);
            }
            "fail-folder" => self.fail_folder(rest)?,
            _ => return Ok(false),
        }
        Ok(true)
    }

    // Follows a line on the log or a crash, where the word is one.
    fn log(&mut self, word: &str, rest: &str, out: &mut Bytes) -> Result<bool, NoMemory> {
        match word {
            "open" => self.log = open(self.alloc, &mut self.memory, rest, out)?,
            "entries" => entries(self.alloc, &mut self.memory, out)?,
            "images" => {
                let shift = rest.parse::<u32>().unwrap_or(0);
                images(self.alloc, &self.memory, shift, out)?;
            }
            "damage" => {
                let log = read_octets(self.alloc, rest)?;
                damage(self.alloc, log.as_slice(), out)?;
            }
            "crash" => self.crash(rest, out)?,
            "starved" => {
                let line = format!(in self.alloc; "{}", self.memory.starved())?;
                answer(out, line.as_str())?;
            }
            _ => return Ok(false),
        }
        Ok(true)
    }

    // Follows a call of the log or the plant.
    fn call(&mut self, line: &str, out: &mut Bytes) -> Result<(), NoMemory> {
        let (word, rest) = cut(line);
        if let Some(log) = &mut self.log {
            if on_log(self.alloc, &mut self.memory, log, word, rest, out)? {
                return Ok(());
            }
        }
        match &mut self.files {
            Some(plant) => follow(self.alloc, plant, line, out),
            None => follow(self.alloc, &mut self.memory, line, out),
        }
    }

    /// Follows a line of the script, and adds its answer.
    pub fn follow(
        &mut self,
        rt: &HostRuntime,
        line: &str,
        out: &mut Bytes,
    ) -> Result<(), NoMemory> {
        if line.is_empty() || line.starts_with('#') {
            return Ok(());
        }
        let (word, rest) = cut(line);
        if self.set(rt, word, rest, out)? {
            return Ok(());
        }
        if self.log(word, rest, out)? {
            return Ok(());
        }
        if on_real(rt, self.alloc, word, rest, out)? {
            return Ok(());
        }
        self.call(line, out)
    }
}
