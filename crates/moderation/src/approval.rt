// Approvals.
ghost use Rattle.std.specs.Prelude.{◌≡◌, ℕ, ◌+◌, ◌<◌, ◌≤◌, Some, length, position, bytes_eq};
ghost use Rattle.moderation.specs.Approval.{IsStateOf, answer, asked, decide_answer, decided, runs_out, expired};

use mail_names::{Gate, Items, Key, LAST_MOMENT};
use std::marker::Model;

/// How long an approval may be decided, in seconds from the moment at which it is made.
pub const APPROVAL_TIME: u64 = 172_800;

/// What a moderator decides.
#[derive(Clone, Copy, Debug, PartialEq, Eq)]
pub enum Verdict {
    Approve,
    Reject,
}

/// How far an approval has come.
#[derive(Clone, Copy, Debug, PartialEq, Eq)]
pub enum ApprovalState {
    /// Nobody has decided.
    Pending,
    /// The moderator at the place `by`, counted from 0, has decided. Of a key that stands there twice it is the
    /// first place.
    Decided { by: u32, verdict: Verdict },
    /// Its deadline passed before anyone decided.
    Ended,
}

/// What becomes of a decision.
#[derive(Clone, Copy, Debug, PartialEq, Eq)]
pub enum Decision {
    /// Nothing: it is none of a moderator's.
    NotModerator,
    /// Nothing: this one, by the moderator at the place `by`, came before it.
    Already { by: u32, verdict: Verdict },
    /// Nothing: it comes at or past the deadline, or the approval has ended.
    Expired { deadline: u64 },
    /// It counts.
    Taken,
}

/// An approval: what it is asked for, who may give it, when it was made and until when it may be decided, in
/// seconds since 1970-01-01T00:00:00Z, and how far it has come.
///
/// It has 1 to 10 moderators, and is made by the last moment.
#[derive(Drop)]
pub struct Approval {
    gate: Gate,
    moderators: Items<Key>,
    made: u64,
    state: ApprovalState,
}

impl Model for Approval {
    ghost use Rattle.std.specs.Prelude.{◌+◌};
    ghost use Rattle.moderation.specs.Approval.{Asked, IsApproval};
    ghost use Rattle.moderation.specs.declared.approval.TheConstants.{APPROVAL_TIME};

    ghost Value = { Asked };

    ghost view = { λ a. record { gate = a.gate; moderators = a.moderators; made = a.made; deadline = a.made + APPROVAL_TIME; state = a.state } };

    ghost invariant = { λ a. IsApproval a.moderators a.made a.state };
}

// The first place of a key.
fn place_of(keys: &[Key], key: &Key) -> Option<u32>
    requires { length keys.now ≤ 10 }
    ensures { result ≡ position (bytes_eq key.now) keys.now }
{
    for (place, other) in keys.iter().enumerate() {
        if *key == *other {
            return Some(place as u32);
        }
    }
    None
}

impl Approval {
    /// An approval that nobody has decided. It may be decided before its deadline, `APPROVAL_TIME` after it is made.
    pub fn new(gate: Gate, moderators: Vec<Key>, made: u64) -> Approval
        requires some { 0 < length moderators.items }
        requires few { length moderators.items ≤ 10 }
        requires moment { made ≤ LAST_MOMENT }
        ensures { result ≡ asked gate moderators.items made }
    {
        Approval {
            gate,
            moderators: Items::from_vec(moderators),
            made,
            state: ApprovalState::Pending,
        }
    }

    /// What it is asked for.
    pub fn gate(&self) -> &Gate
        ensures { result.now ≡ self.now.gate }
    {
        &self.gate
    }

    pub fn moderators(&self) -> &[Key]
        ensures value { result.now ≡ self.now.moderators }
        ensures some { 0 < length result.now }
        ensures few { length result.now ≤ 10 }
    {
        self.moderators.as_slice()
    }

    /// When it was made, in seconds since 1970-01-01T00:00:00Z.
    pub fn made(&self) -> u64
        ensures value { result ≡ self.now.made }
        ensures moment { result ≤ LAST_MOMENT }
    {
        self.made
    }

    /// The first moment at which it can't be decided any more, in seconds since 1970-01-01T00:00:00Z.
    pub fn deadline(&self) -> u64
        ensures value { result ≡ self.now.deadline }
        ensures later { result ≡ self.now.made + APPROVAL_TIME }
    {
        self.made + APPROVAL_TIME
    }

    pub fn state(&self) -> ApprovalState
        ensures value { result ≡ self.now.state }
        ensures by { IsStateOf self.now.moderators result }
    {
        self.state
    }

    // What would become of a decision that a moderator makes at a moment.
    fn moderator_answer(&self, moment: u64) -> Decision
        ensures { (place : ℕ) → result ≡ answer (Some place) self.now.state self.now.deadline moment }
    {
        let deadline = self.made + APPROVAL_TIME;
        match self.state {
            ApprovalState::Decided { by, verdict } => Decision::Already { by, verdict },
            ApprovalState::Pending if moment < deadline => Decision::Taken,
            _ => Decision::Expired { deadline },
        }
    }

    /// What would become of a decision that a key makes at a moment. It takes no memory, and changes nothing.
    pub fn answer(&self, by: &Key, moment: u64) -> Decision
        ensures { result ≡ decide_answer self.now by.now moment }
    {
        match place_of(self.moderators.as_slice(), by) {
            Some(_) => self.moderator_answer(moment),
            None => Decision::NotModerator,
        }
    }

    /// Takes a decision that a key makes at a moment, where it counts. It takes no memory.
    ///
    /// The answers are judged in the order of `Decision`. All but `Taken` leave the approval as it was.
    pub fn decide(&mut self, by: &Key, verdict: Verdict, moment: u64) -> Decision
        ensures answer { result ≡ decide_answer self.old by.now moment }
        ensures after { self.new ≡ decided self.old by.now verdict moment }
    {
        let Some(place) = place_of(self.moderators.as_slice(), by) else {
            return Decision::NotModerator;
        };
        match self.moderator_answer(moment) {
            Decision::Taken => {
                self.state = ApprovalState::Decided { by: place, verdict };
                Decision::Taken
            }
            answer => answer,
        }
    }

    /// Ends the approval where it is pending and the moment is at or past its deadline, and says whether it did. It
    /// takes no memory.
    pub fn expire(&mut self, moment: u64) -> bool
        ensures answer { result ≡ runs_out self.old moment }
        ensures after { self.new ≡ expired self.old moment }
    {
        let ends = self.state == ApprovalState::Pending && moment >= self.deadline();
        if ends {
            self.state = ApprovalState::Ended;
        }
        ends
    }
}
