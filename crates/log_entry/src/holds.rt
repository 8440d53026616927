// Reading the holds and ends of a release.
ghost use Rattle.std.specs.Prelude.{◌≡◌, ⊤};
ghost use Rattle.log_entry.specs.EntryText.{form_tell, form_hold, form_rejected, form_end};
ghost use Rattle.mail_plan.specs.Fits.{IsHold, IsRejected, IsEnd};
ghost use Rattle.log_entry.specs.Reading.{Reads};

use crate::fields::{Field, bytes_at, gate_at, list_at};
use crate::places::{Miss, byte_at, u32_at};
use mail_names::{Items, Key};
use mail_plan::{End, Hold};
use moderation::Tell;
use std::alloc::Global;

fn tell_at(bytes: &[u8], at: usize) -> Result<(Tell, usize), Miss>
    ensures { Reads (λ t. ⊤) form_tell bytes.now at result }
{
    let (number, end) = byte_at(bytes, at)?;
    match number {
        0 => Ok((Tell::Always, end)),
        1 => Ok((Tell::Internal, end)),
        2 => Ok((Tell::Never, end)),
        _ => Err(Miss::NoForm),
    }
}

fn hold_at(alloc: Global, bytes: &[u8], at: usize) -> Result<(Hold, usize), Miss>
    ensures { Reads IsHold form_hold bytes.now at result }
{
    let (gate, at_label) = gate_at(alloc, bytes, at)?;
    let (label, at_moderators) = bytes_at(alloc, bytes, at_label)?;
    let (moderators, at_tell) = list_at(alloc, bytes, at_moderators)?;
    let (tell, end) = tell_at(bytes, at_tell)?;
    let hold = Hold {
        gate,
        label,
        moderators,
        tell,
    };
    Ok((hold, end))
}

// A rule, and the keys that it rejected.
fn rejected_at(alloc: Global, bytes: &[u8], at: usize) -> Result<((u32, Items<Key>), usize), Miss>
    ensures { Reads IsRejected form_rejected bytes.now at result }
{
    let (rule, at_keys) = u32_at(bytes, at)?;
    let (keys, end) = list_at(alloc, bytes, at_keys)?;
    Ok(((rule, keys), end))
}

fn end_at(alloc: Global, bytes: &[u8], at: usize) -> Result<(End, usize), Miss>
    ensures { Reads IsEnd form_end bytes.now at result }
{
    let (tag, start) = byte_at(bytes, at)?;
    match tag {
        0 => {
            let ((rule, keys), end) = rejected_at(alloc, bytes, start)?;
            Ok((End::Rejected { rule, keys }, end))
        }
        1 => {
            let (keys, end) = list_at(alloc, bytes, start)?;
            Ok((End::Unknown { keys }, end))
        }
        2 => Ok((End::TooMany, start)),
        _ => Err(Miss::NoForm),
    }
}

impl Field for Hold {
    ghost use Rattle.log_entry.specs.EntryText.{form_hold};
    ghost use Rattle.mail_plan.specs.Fits.{IsHold};

    ghost is = { IsHold };

    ghost form = { form_hold };

    fn read_at(alloc: Global, bytes: &[u8], at: usize) -> Result<(Hold, usize), Miss> {
        hold_at(alloc, bytes, at)
    }
}

impl Field for End {
    ghost use Rattle.log_entry.specs.EntryText.{form_end};
    ghost use Rattle.mail_plan.specs.Fits.{IsEnd};

    ghost is = { IsEnd };

    ghost form = { form_end };

    fn read_at(alloc: Global, bytes: &[u8], at: usize) -> Result<(End, usize), Miss> {
        end_at(alloc, bytes, at)
    }
}
