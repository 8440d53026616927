// An office that gives the script's answers.
ghost use Rattle.std.specs.Prelude.{◌≡◌, ◌≤◌, true, IfErr, IsErrOf};
ghost use Rattle.port_io.specs.Causes.{Rose};
ghost use Rattle.hub_calls.specs.Refusals.{can_refuse, HasCauses};
ghost use Rattle.hub_calls.specs.declared.office.OfficeCall.{OfficeCall};
ghost use Rattle.hub_calls.specs.declared.fault.HubFault.{HubFault};

use crate::views::{approval_rows, end_rows, item_names, key, queue_view};
use hub_calls::{ApprovalRow, EndRow, HubFault, Office, QueueView, TurnEnd};
use mail_names::{ApprovalName, Bytes, ItemName, Items, Key, NoMemory};
use mail_plan::OrgFault;
use moderation::{Decision, Verdict};
use std::alloc::{AllocError, Global};
use std::str;

/// What the script's office refuses.
#[derive(Clone, Copy, PartialEq, Eq)]
pub enum Refused {
    Nothing,
    Disk,
    Memory,
    Damaged,
    Desk,
    Shelf,
    Item,
    Directory,
    Rules,
    Epochs,
    Approval,
    Full,
}

/// Gives the answers that the script says, and keeps what it was asked.
#[derive(Drop)]
pub struct ScriptOffice {
    alloc: Global,
    refused: Refused,
    decision: Decision,
    has_key: bool,
    refuses_key: bool,
    asked: Bytes,
    disk_faults: u64,
    shelf_faults: u64,
}

fn read_refused(word: &[u8]) -> Refused {
    match word {
        b"disk" => Refused::Disk,
        b"memory" => Refused::Memory,
        b"damaged" => Refused::Damaged,
        b"desk" => Refused::Desk,
        b"shelf" => Refused::Shelf,
        b"item" => Refused::Item,
        b"directory" => Refused::Directory,
        b"rules" => Refused::Rules,
        b"epochs" => Refused::Epochs,
        b"approval" => Refused::Approval,
        b"full" => Refused::Full,
        _ => Refused::Nothing,
    }
}

fn read_decision(word: &[u8]) -> Decision {
    match word {
        b"already" | b"nobody" | b"refused" => Decision::Already {
            by: 1,
            verdict: Verdict::Reject,
        },
        b"expired" => Decision::Expired { deadline: 172_800 },
        b"not" => Decision::NotModerator,
        _ => Decision::Taken,
    }
}

fn verdict_word(verdict: Verdict) -> &'static str {
    match verdict {
        Verdict::Approve => "approve",
        Verdict::Reject => "reject",
    }
}

fn text_of(bytes: &[u8]) -> &str {
    str::from_utf8(bytes).unwrap_or("no UTF-8")
}

// What was found, or want of memory.
fn found<T: Drop>(made: Result<T, NoMemory>) -> Result<T, HubFault>
    ensures { IfErr result (λ fault. fault ≡ HubFault.NoMemory) }
{
    match made {
        Ok(value) => Ok(value),
        Err(NoMemory) => Err(HubFault::NoMemory),
    }
}

impl ScriptOffice {
    /// The office whose refusal and decision these words name.
    pub fn read(alloc: Global, refused: &[u8], decided: &[u8]) -> ScriptOffice {
        ScriptOffice {
            alloc,
            refused: read_refused(refused),
            decision: read_decision(decided),
            has_key: decided != b"nobody".as_slice(),
            refuses_key: decided == b"refused".as_slice(),
            asked: Bytes::new(alloc),
            disk_faults: 0,
            shelf_faults: 0,
        }
    }

    /// A line for each call that was made of it.
    pub fn asked(&self) -> &[u8] {
        self.asked.as_slice()
    }

    // What every call refuses.
    fn refuse(&mut self) -> Result<(), HubFault>
        ensures refuses { (call : OfficeCall) → IfErr result (λ fault. can_refuse call fault ≡ true) }
        ensures causes { HasCauses self.old.disk_faults self.new.disk_faults self.old.shelf_faults self.new.shelf_faults result }
    {
        match self.refused {
            Refused::Disk => {
                self.disk_faults = self.disk_faults.saturating_add(1);
                Err(HubFault::DiskFault)
            }
            Refused::Memory => Err(HubFault::NoMemory),
            Refused::Damaged => Err(HubFault::NotALog { at: 8 }),
            Refused::Desk => Err(HubFault::DeskFull { calls: 9 }),
            _ => Ok(()),
        }
    }

    // Keeps a line that says what was asked, and refuses what every call does.
    fn begin(&mut self, line: Result<String, AllocError>) -> Result<(), HubFault>
        ensures refuses { (call : OfficeCall) → IfErr result (λ fault. can_refuse call fault ≡ true) }
        ensures causes { HasCauses self.old.disk_faults self.new.disk_faults self.old.shelf_faults self.new.shelf_faults result }
    {
        let Ok(line) = line else {
            return Err(HubFault::NoMemory);
        };
        if self.asked.add(line.as_bytes()).is_err() {
            return Err(HubFault::NoMemory);
        }
        self.refuse()
    }

    // The shelf fails.
    fn fail_shelf(&mut self)
        ensures rose { Rose self.old.shelf_faults self.new.shelf_faults }
        ensures later { self.old.shelf_faults ≤ self.new.shelf_faults }
        ensures disks { self.new.disk_faults ≡ self.old.disk_faults }
    {
        self.shelf_faults = self.shelf_faults.saturating_add(1);
    }
}

// The number of an organisation, or why it isn't taken.
fn organised(refused: Refused) -> Result<u32, HubFault>
    ensures refuses { IfErr result (λ fault. can_refuse OfficeCall.Organise fault ≡ true) }
    ensures disk { IsErrOf result HubFault.DiskFault → ⊥ }
    ensures shelf { IsErrOf result HubFault.ShelfFault → ⊥ }
{
    match refused {
        Refused::Directory => Err(HubFault::Org {
            fault: OrgFault::Directory { number: 3, row: 2 },
        }),
        Refused::Rules => Err(HubFault::Org {
            fault: OrgFault::Rules {
                number: 12,
                rule: 0,
            },
        }),
        Refused::Epochs => Err(HubFault::EpochsFull { live: 64 }),
        Refused::Full => Err(HubFault::LogFull { length: 9 }),
        _ => Ok(2),
    }
}

// A decision, or why none is taken.
fn decided(refused: Refused, decision: Decision) -> Result<Decision, HubFault>
    ensures refuses { IfErr result (λ fault. can_refuse OfficeCall.Decide fault ≡ true) }
    ensures disk { IsErrOf result HubFault.DiskFault → ⊥ }
    ensures shelf { IsErrOf result HubFault.ShelfFault → ⊥ }
{
    match refused {
        Refused::Approval => Err(HubFault::NoSuchApproval),
        Refused::Full => Err(HubFault::LogFull { length: 9 }),
        _ => Ok(decision),
    }
}

// What a turn did, or why it wasn't run to its end.
fn turned(refused: Refused, moment: u64) -> Result<TurnEnd, HubFault>
    ensures refuses { IfErr result (λ fault. can_refuse OfficeCall.Turn fault ≡ true) }
    ensures disk { IsErrOf result HubFault.DiskFault → ⊥ }
    ensures shelf { IsErrOf result HubFault.ShelfFault → ⊥ }
{
    match refused {
        Refused::Full => Err(HubFault::LogFull { length: 9 }),
        _ => Ok(TurnEnd {
            moment,
            delivered: 2,
            waiting: 3,
            ended: 4,
        }),
    }
}

// The second moderator's key, or none.
fn second_moderator(alloc: Global, has_key: bool) -> Result<Option<Key>, NoMemory> {
    if has_key {
        Ok(Some(key(alloc, b"max@example.com")?))
    } else {
        Ok(None)
    }
}

impl Office for ScriptOffice {
    ghost disk_faults = { λ o. o.disk_faults };

    ghost shelf_faults = { λ o. o.shelf_faults };

    ghost gives = { λ a s b. Unit {0} };

    fn organise(
        &mut self,
        directory: Option<Bytes>,
        rules: Option<Bytes>,
    ) -> Result<u32, HubFault> {
        let directory = directory.map_or(0, |text| text.as_slice().len());
        let rules = rules.map_or(0, |text| text.as_slice().len());
        let line = format!(in self.alloc;
            "organise: directory of {directory} octets, rules of {rules}\n"
        );
        self.begin(line)?;
        organised(self.refused)
    }

    fn decide(
        &mut self,
        approval: &ApprovalName,
        by: &Key,
        verdict: Verdict,
        clock: u64,
    ) -> Result<Decision, HubFault> {
        let word = verdict_word(verdict);
        let by = text_of(by.bytes());
        let gate = approval.gate;
        let line = format!(in self.alloc; "decide: {word} gate {gate}, by {by} at {clock}\n");
        self.begin(line)?;
        decided(self.refused, self.decision)
    }

    fn moderator(&mut self, approval: &ApprovalName, place: u32) -> Result<Option<Key>, HubFault> {
        let gate = approval.gate;
        let line = format!(in self.alloc; "moderator: {place} of gate {gate}\n");
        self.begin(line)?;
        if self.refuses_key {
            return Err(HubFault::NotALog { at: 8 });
        }
        found(second_moderator(self.alloc, self.has_key))
    }

    fn turn(&mut self, clock: u64) -> Result<TurnEnd, HubFault> {
        let line = format!(in self.alloc; "turn: at {clock}\n");
        self.begin(line)?;
        turned(self.refused, clock)
    }

    fn queue(&mut self) -> Result<QueueView, HubFault> {
        let line = format!(in self.alloc; "queue\n");
        self.begin(line)?;
        found(queue_view(self.alloc))
    }

    fn approvals(&mut self) -> Result<Items<ApprovalRow>, HubFault> {
        let line = format!(in self.alloc; "approvals\n");
        self.begin(line)?;
        found(approval_rows(self.alloc))
    }

    fn ended(&mut self) -> Result<Items<EndRow>, HubFault> {
        let line = format!(in self.alloc; "ended\n");
        self.begin(line)?;
        found(end_rows(self.alloc))
    }

    fn list(&mut self, folder: &Key) -> Result<Items<ItemName>, HubFault> {
        let line = format!(in self.alloc; "list: {}\n", text_of(folder.bytes()));
        self.begin(line)?;
        if self.refused == Refused::Shelf {
            self.fail_shelf();
            return Err(HubFault::ShelfFault);
        }
        found(item_names(self.alloc))
    }

    fn fetch(&mut self, folder: &Key, name: &ItemName) -> Result<Bytes, HubFault> {
        let place = name.place;
        let line = format!(in self.alloc; "fetch: {place} of {}\n", text_of(folder.bytes()));
        self.begin(line)?;
        if self.refused == Refused::Shelf {
            self.fail_shelf();
            return Err(HubFault::ShelfFault);
        }
        if self.refused == Refused::Item {
            return Err(HubFault::NoSuchItem);
        }
        found(Bytes::of(self.alloc, b"Subject: a\r\n\r\nb \"c\"\r\n"))
    }
}
