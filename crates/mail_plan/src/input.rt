// What a release is made from.
ghost use Rattle.std.specs.Prelude.{◌≡◌, ◌≤◌, length, IfOk};
ghost use Rattle.std.specs.Arc.{arc_value};
ghost use Rattle.mail_plan.specs.Planning.{gates_opened, before_at, made_at, input_at, first_input};

use mail_names::{Gate, Items, LAST_MOMENT, NoMemory, copied_gate};
use mail_submission::Submission;
use std::alloc::Global;
use std::marker::Model;
use std::sync::Arc;

/// A gate that an approval opened, and the moment at which it did, in seconds since 1970-01-01T00:00:00Z.
///
/// It did by the last moment.
#[derive(Drop)]
pub struct Opening {
    gate: Gate,
    moment: u64,
}

impl Model for Opening {
    ghost use Rattle.std.specs.Prelude.{◌≤◌};
    ghost use Rattle.mail_names.specs.Dates.{last_moment};
    ghost use Rattle.mail_plan.specs.Planning.{Opening};

    ghost Value = { Opening };

    ghost view = { λ o. record { gate = o.gate; moment = o.moment } };

    ghost invariant = { λ o. o.moment ≤ last_moment };
}

impl Opening {
    pub fn new(gate: Gate, moment: u64) -> Opening
        requires { moment ≤ LAST_MOMENT }
        ensures { result ≡ record { gate = gate; moment = moment } }
    {
        Opening { gate, moment }
    }

    /// A copy of this gate, opened at this moment.
    pub fn of(alloc: Global, gate: &Gate, moment: u64) -> Result<Opening, NoMemory>
        requires { moment ≤ LAST_MOMENT }
        ensures { IfOk result (λ opening. opening ≡ record { gate = gate.now; moment = moment }) }
    {
        let gate = copied_gate(alloc, gate)?;
        Ok(Opening { gate, moment })
    }

    pub fn gate(&self) -> &Gate
        ensures { result.now ≡ self.now.gate }
    {
        &self.gate
    }

    /// When the gate was opened.
    pub fn moment(&self) -> u64
        ensures value { result ≡ self.now.moment }
        ensures moment { result ≤ LAST_MOMENT }
    {
        self.moment
    }
}

fn gates_opened(alloc: Global, openings: &[Opening]) -> Result<Items<Gate>, NoMemory>
    ensures { IfOk result (λ gates. gates ≡ gates_opened openings.now) }
{
    let mut gates = Items::new(alloc);
    for opening in openings {
        gates.push(copied_gate(alloc, opening.gate())?)?;
    }
    Ok(gates)
}

// The gates that were opened before a release; None for the first one.
fn before_at(
    alloc: Global,
    openings: &[Opening],
    release: usize,
) -> Result<Option<Items<Gate>>, NoMemory>
    requires { release ≤ length openings.now }
    ensures { IfOk result (λ gates. gates ≡ before_at openings.now release) }
{
    if release == 0 {
        return Ok(None);
    }
    let gates = gates_opened(alloc, &openings[..release - 1])?;
    Ok(Some(gates))
}

/// The moment of a release behind these openings, where that of the first is given.
pub fn made_at(first: u64, openings: &[Opening], release: u32) -> u64
    requires { first ≤ LAST_MOMENT }
    ensures value { result ≡ made_at first openings.now release }
    ensures moment { result ≤ LAST_MOMENT }
{
    if release == 0 {
        return first;
    }
    match openings.get(release as usize - 1) {
        Some(opening) => opening.moment(),
        None => first,
    }
}

/// What a release is made from: the submission with its number, the epoch of the organisation that stood when it was
/// accepted, the moments of acceptance and of this release, in seconds since 1970-01-01T00:00:00Z, and the gates that
/// were opened before this release, where it isn't the first, and that are opened with it.
#[derive(Drop)]
pub struct ReleaseInput {
    number: u64,
    release: u32,
    epoch: u32,
    accepted_at: u64,
    made: u64,
    before: Option<Items<Gate>>,
    opened: Items<Gate>,
    submission: Arc<Submission>,
}

impl Model for ReleaseInput {
    ghost use Rattle.std.specs.Prelude.{◌≤◌};
    ghost use Rattle.std.specs.Arc.{arc_value};
    ghost use Rattle.mail_names.specs.Dates.{last_moment};
    ghost use Rattle.mail_plan.specs.Planning.{Input};

    ghost Value = { Input };

    ghost view = { λ i. record { number = i.number; release = i.release; epoch = i.epoch; accepted_at = i.accepted_at; made = i.made; before = i.before; opened = i.opened; submission = arc_value i.submission } };

    ghost invariant = { λ i. (i.accepted_at ≤ last_moment) × (i.made ≤ last_moment) };
}

impl ReleaseInput {
    /// The input of a release of a submission, behind these openings: the first release is that of acceptance, and each
    /// opening makes the next.
    pub fn at(
        alloc: Global,
        number: u64,
        epoch: u32,
        accepted_at: u64,
        submission: Arc<Submission>,
        opened: &[Opening],
        release: u32,
    ) -> Result<ReleaseInput, NoMemory>
        requires moment { accepted_at ≤ LAST_MOMENT }
        requires within { release ≤ length opened.now }
        ensures { IfOk result (λ input. input ≡ input_at (first_input number epoch accepted_at (arc_value submission)) opened.now release) }
    {
        let place = release as usize;
        let made = made_at(accepted_at, opened, release);
        let before = before_at(alloc, opened, place)?;
        let opened = gates_opened(alloc, &opened[..place])?;
        Ok(ReleaseInput {
            number,
            release,
            epoch,
            accepted_at,
            made,
            before,
            opened,
            submission,
        })
    }

    pub fn number(&self) -> u64
        ensures { result ≡ self.now.number }
    {
        self.number
    }

    pub fn release(&self) -> u32
        ensures { result ≡ self.now.release }
    {
        self.release
    }

    pub fn epoch(&self) -> u32
        ensures { result ≡ self.now.epoch }
    {
        self.epoch
    }

    /// When the submission was accepted.
    pub fn accepted_at(&self) -> u64
        ensures value { result ≡ self.now.accepted_at }
        ensures moment { result ≤ LAST_MOMENT }
    {
        self.accepted_at
    }

    /// When the release was made: at acceptance, or by the decision that opened its last gate.
    pub fn made(&self) -> u64
        ensures value { result ≡ self.now.made }
        ensures moment { result ≤ LAST_MOMENT }
    {
        self.made
    }

    /// The gates that were opened before this release; None for the first one.
    pub fn before(&self) -> &Option<Items<Gate>>
        ensures { result.now ≡ self.now.before }
    {
        &self.before
    }

    /// The gates that are opened with this release.
    pub fn opened(&self) -> &[Gate]
        ensures { result.now ≡ self.now.opened }
    {
        self.opened.as_slice()
    }

    pub fn submission(&self) -> &Submission
        ensures { result.now ≡ self.now.submission }
    {
        &self.submission
    }
}
