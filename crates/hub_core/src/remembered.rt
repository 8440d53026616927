// The submissions that the hub remembers, with an index of them.
ghost use Rattle.std.specs.Prelude.{◌≡◌, ◌<◌, ◌≤◌, ◌^◌, ◌++◌, ◌∷◌, [], ℕ, List, true, false, map, Some, IfSome, OnOk, OnErr, slice_get};
ghost use Rattle.moderation.specs.declared.approval.Verdict.TheVariants as verdicts;
ghost use Rattle.hub_core.specs.Approvals.{changed};
ghost use Rattle.hub_core.specs.Mail.{is_uncategorised, with_asks, decision_in, is_taken, decided_mail, expired_mail};
ghost use Rattle.hub_core.specs.Standing.{place_of_same};
ghost use Rattle.hub_core.specs.Repeats.{digest_of, is_digest, found_or, place_at, repeats_at, IsIndex};

use crate::asking::Asking;
use crate::digest::digest_of;
use crate::live::{Live, is_repeat, place_of_same};
use mail_names::{ApprovalName, Key, LAST_MOMENT, NoMemory};
use mail_plan::Planner;
use mail_submission::Submission;
use std::alloc::Global;
use std::collections::BTreeMap;
use std::marker::Model;

/// The submissions that were accepted, in order. Contracts see them as their list.
///
/// `index` has the place of the first submission of each digest. So a look-up takes one pass over the message and a
/// search in a tree. It scans them all only where two different submissions have one SHA-256 digest.
#[derive(Drop)]
pub struct Remembered<T: Planner> {
    lives: Vec<Live<T>>,
    index: BTreeMap<[u8; 32], usize>,
}

impl<T: Planner> Model for Remembered<T> {
    ghost use Rattle.std.specs.Prelude.{List};
    ghost use Rattle.hub_core.specs.Mail.{LiveMail};
    ghost use Rattle.hub_core.specs.Repeats.{IsIndex};

    ghost Value = { List LiveMail };

    ghost view = { λ r. r.lives.items };

    ghost invariant = { λ r. IsIndex r.index r.lives.items };
}

// Puts the place under its digest, unless one stands there.
fn note(
    index: &mut BTreeMap<[u8; 32], usize>,
    digest: Option<[u8; 32]>,
    place: usize,
) -> Result<(), NoMemory>
    ensures ok { OnOk result ((other : List ℕ) → place_at index.new other ≡ found_or (place_at index.old other) (is_digest other digest) place) }
    ensures err { OnErr result (index.new.entries ≡ index.old.entries) }
{
    let Some(digest) = digest else {
        return Ok(());
    };
    if !index.contains_key(&digest) {
        index.insert(digest, place)?;
    }
    Ok(())
}

fn repeats_at<T: Planner>(lives: &[Live<T>], place: usize, submission: &Submission) -> bool
    ensures { result ≡ repeats_at (slice_get lives.now place) submission.now }
{
    match lives.get(place) {
        None => false,
        Some(live) => is_repeat(live, submission),
    }
}

// The place of the first submission that this one, of this digest, repeats.
fn place_by<T: Planner>(
    lives: &[Live<T>],
    index: &BTreeMap<[u8; 32], usize>,
    digest: &[u8; 32],
    submission: &Submission,
) -> Option<usize>
    requires indexed { IsIndex index.now lives.now }
    requires own { digest_of submission.now ≡ Some digest.now }
    ensures { result ≡ place_of_same submission.now lives.now }
{
    match index.get(digest) {
        None => None,
        Some(place) => {
            if repeats_at(lives, *place, submission) {
                Some(*place)
            } else {
                place_of_same(lives, submission)
            }
        }
    }
}

impl<T: Planner> Remembered<T> {
    pub fn new(alloc: Global) -> Remembered<T>
        ensures { result ≡ [] }
    {
        Remembered {
            lives: Vec::new(alloc),
            index: BTreeMap::new(alloc),
        }
    }

    pub fn as_slice(&self) -> &[Live<T>]
        ensures { result.now ≡ self.now }
    {
        &self.lives
    }

    /// The place of the first submission that this one repeats.
    pub fn place_of_same(&self, submission: &Submission) -> Option<usize>
        ensures value { result ≡ place_of_same submission.now self.now }
        ensures small { IfSome result (λ place. place < 2 ^ 63) }
    {
        match digest_of(submission) {
            None => None,
            Some(digest) => place_by(&self.lives, &self.index, &digest, submission),
        }
    }

    /// Puts a submission behind the others. After an error they are as they were.
    pub fn push(&mut self, live: Live<T>) -> Result<(), NoMemory>
        ensures ok { OnOk result (self.new ≡ self.old ++ live ∷ []) }
        ensures err { OnErr result (self.new ≡ self.old) }
    {
        let digest = digest_of(live.submission());
        let place = self.lives.len();
        self.lives.push(live)?;
        if let Err(fault) = note(&mut self.index, digest, place) {
            self.lives.pop();
            return Err(fault);
        }
        Ok(())
    }

    /// A release that waits of the submission at this place is categorised, and asks for these approvals.
    pub fn categorise(&mut self, place: usize, release: u32, asks: Vec<Asking>)
        requires { is_uncategorised (slice_get self.old place) release ≡ true }
        ensures { self.new ≡ changed (with_asks release asks.items) place self.old }
    {
        self.lives[place].categorise(release, asks);
    }

    /// A decision opens the gate of an approval of the submission at this place, and makes a release. After an error
    /// nothing has changed.
    pub fn approve(
        &mut self,
        alloc: Global,
        place: usize,
        name: &ApprovalName,
        by: &Key,
        moment: u64,
    ) -> Result<(), NoMemory>
        requires taken { is_taken (decision_in (slice_get self.old place) name.now by.now verdicts.Approve moment) ≡ true }
        requires moment { moment ≤ LAST_MOMENT }
        ensures ok { OnOk result (self.new ≡ changed (decided_mail name.now by.now verdicts.Approve moment) place self.old) }
        ensures err { OnErr result (self.new ≡ self.old) }
    {
        self.lives[place].approve(alloc, name, by, moment)
    }

    /// A decision refuses an approval of the submission at this place.
    pub fn refuse(&mut self, place: usize, name: &ApprovalName, by: &Key, moment: u64)
        requires { is_taken (decision_in (slice_get self.old place) name.now by.now verdicts.Reject moment) ≡ true }
        ensures { self.new ≡ changed (decided_mail name.now by.now verdicts.Reject moment) place self.old }
    {
        self.lives[place].refuse(name, by, moment);
    }

    /// Ends the approvals that run out at a moment.
    pub fn expire(&mut self, moment: u64)
        ensures { self.new ≡ map (expired_mail moment) self.old }
    {
        expire_lives(&mut self.lives, moment);
    }
}

fn expire_lives<T: Planner>(lives: &mut Vec<Live<T>>, moment: u64)
    ensures { lives.new.items ≡ map (expired_mail moment) lives.old.items }
{
    for live in lives.iter_mut() {
        live.expire(moment);
    }
}
