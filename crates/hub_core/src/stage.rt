// The releases of a submission.
ghost use Rattle.std.specs.Prelude.{◌≡◌, Some, None, map, option_copied};
ghost use Rattle.std.specs.List.{list_any};
ghost use Rattle.hub_core.specs.Approvals.{changed, pends, stage_waits, stage_pends, stage_open, decided_asking, decided_stage, expired_asking, expired_stage, asking_in, asks_in};

use crate::asking::Asking;
use mail_names::Key;
use moderation::{ApprovalState, Verdict};
use std::marker::Model;

/// A release of a submission: it waits to be categorised, or asks for approvals, none, one or more.
#[derive(Drop)]
pub struct Stage {
    asks: Option<Vec<Asking>>,
}

impl Model for Stage {
    ghost use Rattle.std.specs.Prelude.{option_map};
    ghost use Rattle.hub_core.specs.Approvals.{Stage};

    ghost Value = { Stage };

    ghost view = { λ s. option_map (λ asks. asks.items) s.asks };
}

impl Stage {
    /// A release that waits to be categorised.
    pub fn waiting() -> Stage
        ensures { result ≡ None }
    {
        Stage { asks: None }
    }

    pub fn waits(&self) -> bool
        ensures { result ≡ stage_waits self.now }
    {
        self.asks.is_none()
    }

    /// Whether an approval pends.
    pub fn pends(&self) -> bool
        ensures { result ≡ stage_pends self.now }
    {
        match &self.asks {
            None => false,
            Some(asks) => any_pends(asks),
        }
    }

    /// Whether it waits to be categorised, or an approval pends.
    pub fn is_open(&self) -> bool
        ensures { result ≡ stage_open self.now }
    {
        match &self.asks {
            None => true,
            Some(asks) => any_pends(asks),
        }
    }

    /// The approvals that it asks for; none are known as long as it waits.
    pub fn asks(&self) -> &[Asking]
        ensures { result.now ≡ asks_in self.now }
    {
        match &self.asks {
            None => &[],
            Some(asks) => asks.as_slice(),
        }
    }

    /// The approval at this place.
    pub fn asking(&self, gate: u32) -> Option<&Asking>
        ensures { option_copied result ≡ asking_in (Some self.now) gate }
    {
        match &self.asks {
            None => None,
            Some(asks) => asks.get(gate as usize),
        }
    }

    /// It is categorised, and asks for these approvals.
    pub fn categorise(&mut self, asks: Vec<Asking>)
        ensures { self.new ≡ Some asks.items }
    {
        self.asks = Some(asks);
    }

    /// Takes a decision on the approval at this place, where it counts.
    pub fn decide(&mut self, gate: u32, by: &Key, verdict: Verdict, moment: u64)
        ensures { self.new ≡ decided_stage gate by.now verdict moment self.old }
    {
        if let Some(asks) = &mut self.asks {
            decide_at(asks, gate, by, verdict, moment);
        }
    }

    /// Ends the approvals that run out at a moment.
    pub fn expire(&mut self, moment: u64)
        ensures { self.new ≡ expired_stage moment self.old }
    {
        if let Some(asks) = &mut self.asks {
            expire_all(asks, moment);
        }
    }
}

fn any_pends(asks: &[Asking]) -> bool
    ensures { result ≡ list_any pends asks.now }
{
    asks.iter()
        .any(|asking| asking.approval.state() == ApprovalState::Pending)
}

fn decide_at(asks: &mut Vec<Asking>, gate: u32, by: &Key, verdict: Verdict, moment: u64)
    ensures { asks.new.items ≡ changed (decided_asking by.now verdict moment) gate asks.old.items }
{
    let gate = gate as usize;
    if gate < asks.len() {
        asks[gate].approval.decide(by, verdict, moment);
    }
}

fn expire_all(asks: &mut Vec<Asking>, moment: u64)
    ensures { asks.new.items ≡ map (expired_asking moment) asks.old.items }
{
    for asking in asks.iter_mut() {
        asking.approval.expire(moment);
    }
}
