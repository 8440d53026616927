// What a route and its path mean.
ghost use Rattle.std.specs.Prelude.{◌≡◌, ◌≢◌, true, IfOk, OnErr, IfSome, IfNone};
ghost use Rattle.mail_names.specs.Key.{key_of};
ghost use Rattle.http_head.specs.Deeds.{read_key, verdict_word, IsMeant, has_key};
ghost use Rattle.moderation.specs.declared.approval.Verdict.{Verdict};

use crate::Route;
use crate::octets::{fourth_part, second_part, third_part};
use mail_names::{ApprovalName, ItemName, Key, NameFault, NoMemory};
use moderation::Verdict;
use std::alloc::Global;

/// What a request asks the hub to do.
#[derive(Drop)]
pub enum Deed {
    /// To show what is queued.
    Queue,
    /// To show the approvals that pend.
    Approvals,
    /// To show the tasks that have ended.
    Ended,
    /// To list the items of a folder.
    Folder {
        folder: Key,
    },
    /// To show an item of a folder.
    Item {
        folder: Key,
        name: ItemName,
    },
    /// To make the body the organisation's directory.
    Directory,
    /// To make the body the organisation's rules.
    Rules,
    /// To decide an approval, by the moderator with this key.
    Decide {
        approval: ApprovalName,
        verdict: Verdict,
        by: Key,
    },
    /// To run a turn.
    Turn,
    /// To stop a serving program.
    Stop,
}

fn key_in(alloc: Global, text: &[u8]) -> Result<Option<Key>, NoMemory>
    ensures { IfOk result (λ key. key ≡ read_key (key_of text.now)) }
{
    match Key::read(alloc, text) {
        Ok(key) => Ok(Some(key)),
        Err(NameFault::NoMemory) => Err(NoMemory),
        Err(NameFault::TooShort)
        | Err(NameFault::TooLong)
        | Err(NameFault::BadByte { .. })
        | Err(NameFault::NoAt) => Ok(None),
    }
}

fn verdict_in(text: &[u8]) -> Option<Verdict>
    ensures some { IfSome result (λ verdict. verdict_word verdict ≡ text.now) }
    ensures none { IfNone result ((verdict : Verdict) → verdict_word verdict ≢ text.now) }
{
    match text {
        b"approve" => Some(Verdict::Approve),
        b"reject" => Some(Verdict::Reject),
        _ => None,
    }
}

fn folder_in(alloc: Global, target: &[u8]) -> Result<Option<Deed>, NoMemory>
    ensures { IfOk result (IsMeant Route.Folder target.now) }
{
    match key_in(alloc, second_part(target))? {
        Some(folder) => Ok(Some(Deed::Folder { folder })),
        None => Ok(None),
    }
}

fn item_in(alloc: Global, target: &[u8]) -> Result<Option<Deed>, NoMemory>
    ensures { IfOk result (IsMeant Route.Item target.now) }
{
    let Some(name) = ItemName::read(third_part(target)) else {
        return Ok(None);
    };
    match key_in(alloc, second_part(target))? {
        Some(folder) => Ok(Some(Deed::Item { folder, name })),
        None => Ok(None),
    }
}

fn decision_in(alloc: Global, target: &[u8]) -> Result<Option<Deed>, NoMemory>
    ensures { IfOk result (IsMeant Route.Decide target.now) }
{
    let Some(approval) = ApprovalName::read(second_part(target)) else {
        return Ok(None);
    };
    let Some(verdict) = verdict_in(third_part(target)) else {
        return Ok(None);
    };
    match key_in(alloc, fourth_part(target))? {
        Some(by) => Ok(Some(Deed::Decide {
            approval,
            verdict,
            by,
        })),
        None => Ok(None),
    }
}

/// The deed that a route and its target mean; none where a part of the path isn't the key, name or verdict that its place
/// wants, which is answered 404.
///
/// The words of a verdict are `approve` and `reject`, in lower case. Want of memory comes only where the path has a key.
pub fn deed_of(alloc: Global, route: Route, target: &[u8]) -> Result<Option<Deed>, NoMemory>
    ensures ok { IfOk result (IsMeant route target.now) }
    ensures memory { OnErr result (has_key route ≡ true) }
{
    match route {
        Route::Queue => Ok(Some(Deed::Queue)),
        Route::Approvals => Ok(Some(Deed::Approvals)),
        Route::Ended => Ok(Some(Deed::Ended)),
        Route::Folder => folder_in(alloc, target),
        Route::Item => item_in(alloc, target),
        Route::Directory => Ok(Some(Deed::Directory)),
        Route::Rules => Ok(Some(Deed::Rules)),
        Route::Decide => decision_in(alloc, target),
        Route::Turn => Ok(Some(Deed::Turn)),
        Route::Stop => Ok(Some(Deed::Stop)),
    }
}
