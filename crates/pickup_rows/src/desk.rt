// An intake for the work on whole folders.
use crate::row::Fault;
use mail_names::{Bytes, NoMemory};
use mail_submission::{Accepted, Intake, IntakeFault, NumberFault, Origin, Submission};
use std::alloc::Global;

/// An intake that refuses as the row says, knows marks again, and keeps lines on what it was asked.
#[derive(Drop)]
pub struct Desk {
    alloc: Global,
    refusals: Vec<Option<IntakeFault>>,
    calls: usize,
    marks: Vec<Bytes>,
    faults: u64,
    pub lines: Vec<Bytes>,
}

// The refusal that a word of the row names.
fn refusal_of(word: &[u8]) -> Option<IntakeFault> {
    match word {
        b"disk" => Some(IntakeFault::DiskFault),
        b"memory" => Some(IntakeFault::NoMemory),
        b"queue" => Some(IntakeFault::QueueFull { live: 1, bytes: 2 }),
        b"log" => Some(IntakeFault::LogFull { length: 9 }),
        b"no-log" => Some(IntakeFault::NotALog { at: 8 }),
        b"desk" => Some(IntakeFault::DeskFull { calls: 2 }),
        _ => None,
    }
}

// The refusal of a number. A full queue or log is none.
fn number_fault(fault: IntakeFault) -> NumberFault {
    match fault {
        IntakeFault::DiskFault => NumberFault::DiskFault,
        IntakeFault::NotALog { at } => NumberFault::NotALog { at },
        IntakeFault::DeskFull { calls } => NumberFault::DeskFull { calls },
        IntakeFault::NoMemory | IntakeFault::QueueFull { .. } | IntakeFault::LogFull { .. } => {
            NumberFault::NoMemory
        }
    }
}

/// How an intake refuses by these words, one for each call. A word that is no refusal lets the call be.
pub fn refusals_of(alloc: Global, words: &[u8]) -> Result<Vec<Option<IntakeFault>>, Fault> {
    let mut refusals = Vec::new(alloc);
    for word in words.split(|b| *b == b' ') {
        refusals.push(refusal_of(word))?;
    }
    Ok(refusals)
}

// What a submission is asked as.
fn line_of(
    alloc: Global,
    mark: &[u8],
    submission: &Submission,
    clock: u64,
) -> Result<Bytes, NoMemory> {
    let keys = submission.recipients().len();
    let octets = submission.bytes().len();
    let mut line = Bytes::of(alloc, mark)?;
    let text = format!(in alloc; " at {clock}: {octets} octets to {keys}")?;
    line.add(text.as_bytes())?;
    Ok(line)
}

impl Desk {
    ghost use Rattle.std.specs.Prelude.{◌≡◌};

    pub fn new(alloc: Global, refusals: Vec<Option<IntakeFault>>) -> Desk {
        Desk {
            alloc,
            refusals,
            calls: 0,
            marks: Vec::new(alloc),
            faults: 0,
            lines: Vec::new(alloc),
        }
    }

    fn next_refusal(&mut self) -> Option<IntakeFault>
        ensures { self.new.faults ≡ self.old.faults }
    {
        let refusal = self.refusals.get(self.calls).copied().unwrap_or(None);
        self.calls = self.calls.saturating_add(1);
        refusal
    }

    // The answer to a mark, which is a repeat where it was asked before.
    fn taken(&mut self, mark: &[u8]) -> Result<Accepted, NoMemory>
        ensures { self.new.faults ≡ self.old.faults }
    {
        for (place, other) in self.marks.iter().enumerate() {
            if other.as_slice() == mark {
                return Ok(Accepted {
                    number: (place as u64).saturating_add(1),
                    repeat: true,
                });
            }
        }
        self.marks.push(Bytes::of(self.alloc, mark)?)?;
        Ok(Accepted {
            number: self.marks.len() as u64,
            repeat: false,
        })
    }

    fn ask(&mut self, submission: &Submission, clock: u64) -> Result<Accepted, NoMemory>
        ensures { self.new.faults ≡ self.old.faults }
    {
        let mark = match submission.origin() {
            Origin::Pickup { mark } => mark.as_slice(),
            Origin::Smtp => b"",
        };
        let line = line_of(self.alloc, mark, submission, clock)?;
        self.lines.push(line)?;
        self.taken(mark)
    }
}

impl Intake for Desk {
    ghost disk_faults = { λ s. s.faults };

    ghost gives = { λ s a b. Unit {0} };

    fn submit(&mut self, submission: Submission, clock: u64) -> Result<Accepted, IntakeFault> {
        if let Some(fault) = self.next_refusal() {
            self.faults = self.faults.saturating_add(1);
            return Err(fault);
        }
        match self.ask(&submission, clock) {
            Ok(accepted) => Ok(accepted),
            Err(NoMemory) => Err(IntakeFault::NoMemory),
        }
    }

    fn next_number(&mut self) -> Result<u64, NumberFault> {
        if let Some(fault) = self.next_refusal() {
            self.faults = self.faults.saturating_add(1);
            return Err(number_fault(fault));
        }
        Ok((self.marks.len() as u64).saturating_add(1))
    }
}
