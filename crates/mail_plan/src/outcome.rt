// Releases that are to be made, and that were.
ghost use Rattle.std.specs.Prelude.{◌≡◌, IfOk};
ghost use Rattle.std.specs.Arc.{arc_value};

use crate::{Planner, Release, ReleaseInput};
use mail_names::NoMemory;
use std::alloc::Global;
use std::marker::Model;
use std::sync::Arc;

/// A release that is to be made: its input, and the organisation that prescribes it.
#[derive(Drop)]
pub struct Task<T: Planner> {
    pub org: Arc<T::Org>,
    pub input: ReleaseInput,
}

/// A release that was made, with the organisation and the input that it was made from. It is always the one that the
/// planner prescribes for them.
#[derive(Drop)]
pub struct Outcome<T: Planner> {
    org: Arc<T::Org>,
    input: ReleaseInput,
    release: Release,
}

impl<T: Planner> Model for Outcome<T> {
    ghost use Rattle.std.specs.Prelude.{◌≡◌};
    ghost use Rattle.std.specs.Arc.{arc_value};
    ghost use Rattle.mail_plan.specs.Means.{Made};

    ghost Value = { Made T.Org };

    ghost view = { λ o. record { org = arc_value o.org; input = o.input; release = o.release } };

    ghost invariant = { λ o. o.release ≡ T.means.release_of (arc_value o.org) o.input };
}

/// Makes the release of a task.
pub fn plan<T: Planner>(alloc: Global, task: Task<T>) -> Result<Outcome<T>, NoMemory>
    ensures { IfOk result (λ outcome. outcome ≡ record { org = arc_value task.org; input = task.input; release = T.means.release_of (arc_value task.org) task.input }) }
{
    let Task { org, input } = task;
    let release = T::release(alloc, &org, &input)?;
    Ok(Outcome {
        org,
        input,
        release,
    })
}

impl<T: Planner> Outcome<T> {
    /// The organisation by which the release was made.
    pub fn org(&self) -> &T::Org
        ensures { result.now ≡ self.now.org }
    {
        &self.org
    }

    /// What the release was made from.
    pub fn input(&self) -> &ReleaseInput
        ensures { result.now ≡ self.now.input }
    {
        &self.input
    }

    /// The release, which is the one that the planner prescribes.
    pub fn release(&self) -> &Release
        ensures value { result.now ≡ self.now.release }
        ensures prescribed { result.now ≡ T.means.release_of self.now.org self.now.input }
    {
        &self.release
    }

    /// Gives the release up.
    pub fn into_release(self) -> Release
        ensures { result ≡ self.release }
    {
        let Outcome {
            org: _,
            input: _,
            release,
        } = self;
        release
    }
}
