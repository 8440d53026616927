// What becomes of items that turns try.
ghost use Rattle.std.specs.Prelude.{◌≡◌, true, find, map, option_copied, IfOk};
ghost use Rattle.hub_core.specs.declared.waiting.Due.TheVariants as dues;
ghost use Rattle.hub_core.specs.Setup.{setup_of};
ghost use Rattle.hub_core.specs.Standing.{Applies, delayed_told, delays, ended_told, ends, mail_of};
ghost use Rattle.hub_core.specs.Waiting.{is_named, noticed};

use super::State;
use crate::StepFault;
use crate::delivery::{delay_told, failure_told, may_delay, may_end};
use crate::live::Live;
use crate::waiting::{Due, WaitingItem, find, is_waiting, noticed_all, take_out, tell};
use log_entry::Entry;
use mail_names::{ItemName, NoMemory};
use mail_plan::Planner;
use std::alloc::Global;
use std::collections::VecDeque;

impl<T: Planner> State<T> {
    // The submission of this number.
    fn live_of(&self, number: u64) -> Option<&Live<T>>
        ensures { option_copied result ≡ mail_of self.now number }
    {
        if number == 0 {
            return None;
        }
        self.live.as_slice().get((number - 1) as usize)
    }

    /// Whether the sender of this item can be told now that it is late, and wasn't.
    pub fn delays(&self, name: &ItemName) -> bool
        ensures { result ≡ delays self.now (find (is_named name.now) self.now.waiting) }
    {
        match find(&self.waiting, name) {
            None => false,
            Some(item) => may_delay(self.live_of(item.item.name.submission), item, self.moment),
        }
    }

    /// Whether this item may be given up now.
    pub fn ends(&self, name: &ItemName) -> bool
        ensures { result ≡ ends self.now (find (is_named name.now) self.now.waiting) }
    {
        match find(&self.waiting, name) {
            None => false,
            Some(item) => may_end(item, self.moment),
        }
    }

    // An item is in its folder.
    pub(super) fn deliver(&mut self, name: &ItemName) -> Result<(), StepFault>
        ensures { Applies (setup_of T.means self.old.limits) self.old (Entry.Delivered name.now) result self.new }
    {
        if !is_waiting(&self.waiting, name) {
            return Err(StepFault::NotLawful);
        }
        take_out(&mut self.waiting, name);
        Ok(())
    }

    // What the sender of an item is told where it is late.
    fn delay_notices(
        &self,
        alloc: Global,
        name: &ItemName,
    ) -> Result<VecDeque<WaitingItem>, NoMemory>
        requires { delays self.now (find (is_named name.now) self.now.waiting) ≡ true }
        ensures { IfOk result (λ told. told.items ≡ map (noticed self.now.moment dues.Made) (delayed_told self.now (find (is_named name.now) self.now.waiting))) }
    {
        let told = match find(&self.waiting, name) {
            None => VecDeque::new(alloc),
            Some(item) => delay_told(
                alloc,
                self.live_of(item.item.name.submission),
                item,
                self.moment,
            )?,
        };
        noticed_all(alloc, told, self.moment, Due::Made)
    }

    // What the sender of an item is told where it is given up.
    fn failure_notices(
        &self,
        alloc: Global,
        name: &ItemName,
    ) -> Result<VecDeque<WaitingItem>, NoMemory>
        ensures { IfOk result (λ told. told.items ≡ map (noticed self.now.moment dues.Made) (ended_told self.now (find (is_named name.now) self.now.waiting))) }
    {
        let told = match find(&self.waiting, name) {
            None => VecDeque::new(alloc),
            Some(item) => failure_told(
                alloc,
                self.live_of(item.item.name.submission),
                item,
                self.moment,
            )?,
        };
        noticed_all(alloc, told, self.moment, Due::Made)
    }

    // The sender of an item was told that it is late.
    pub(super) fn delay(&mut self, alloc: Global, name: &ItemName) -> Result<(), StepFault>
        ensures { Applies (setup_of T.means self.old.limits) self.old (Entry.Delayed name.now) result self.new }
    {
        if !self.delays(name) {
            return Err(StepFault::NotLawful);
        }
        let mut told = self
            .delay_notices(alloc, name)
            .map_err(|_| StepFault::NoMemory)?;
        self.waiting
            .append(&mut told)
            .map_err(|_| StepFault::NoMemory)?;
        tell(&mut self.waiting, name);
        Ok(())
    }

    // An item was given up.
    pub(super) fn end(&mut self, alloc: Global, name: &ItemName) -> Result<(), StepFault>
        ensures { Applies (setup_of T.means self.old.limits) self.old (Entry.Ended name.now) result self.new }
    {
        if !self.ends(name) {
            return Err(StepFault::NotLawful);
        }
        let mut told = self
            .failure_notices(alloc, name)
            .map_err(|_| StepFault::NoMemory)?;
        self.waiting
            .append(&mut told)
            .map_err(|_| StepFault::NoMemory)?;
        take_out(&mut self.waiting, name);
        Ok(())
    }
}
