// Copies.
ghost use Rattle.std.specs.Prelude.{◌≡◌, IfOk};

use crate::parts::{Rejection, Send};
use group_expand::Leaf;
use mail_names::{Bytes, Items, NoMemory, copied_steps};
use std::alloc::Global;

pub fn copied_leaf(alloc: Global, leaf: &Leaf) -> Result<Leaf, NoMemory>
    ensures { IfOk result (λ copied. copied ≡ leaf.now) }
{
    Ok(Leaf {
        key: leaf.key.copy(alloc)?,
        route: copied_steps(alloc, leaf.route.as_slice())?,
    })
}

pub fn copied_send(alloc: Global, send: &Send) -> Result<Send, NoMemory>
    ensures { IfOk result (λ copied. copied ≡ send.now) }
{
    Ok(Send {
        target: send.target.copy(alloc)?,
        why: send.why.copy(alloc)?,
        text: send.text.share()?,
    })
}

pub fn copied_rejection(alloc: Global, rejection: &Rejection) -> Result<Rejection, NoMemory>
    ensures { IfOk result (λ copied. copied ≡ rejection.now) }
{
    Ok(Rejection {
        key: rejection.key.copy(alloc)?,
        rule: rejection.rule,
        code: rejection.code,
        words: Bytes::of(alloc, rejection.words.as_slice())?,
    })
}

pub fn copied_sends(alloc: Global, sends: &[Send]) -> Result<Items<Send>, NoMemory>
    ensures { IfOk result (λ copied. copied ≡ sends.now) }
{
    let mut copied = Items::new(alloc);
    for send in sends {
        copied.push(copied_send(alloc, send)?)?;
    }
    Ok(copied)
}
