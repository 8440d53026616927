// The form of a release.
ghost use Rattle.std.specs.Prelude.{◌≡◌, ◌&&◌, nat_le, length, true, false, bytes_eq};
ghost use Rattle.std.specs.List.{list_any};
ghost use Rattle.mail_plan.specs.Planning.{is_at, is_plain, are_named, use_texts, are_distinct, is_among, have_moderators, is_release};

use crate::release::{Hold, Item, Release};
use mail_names::{Bytes, ItemName, Mark};

// Whether this is the name of the item at a place of a release.
fn is_at(number: u64, release: u32, place: usize, name: &ItemName) -> bool
    ensures { result ≡ is_at number release place name.now }
{
    name.submission == number
        && name.release == release
        && name.place as usize == place
        && matches!(name.mark, Mark::Plain)
}

// Whether the items are named in order.
fn are_named(number: u64, release: u32, items: &[Item]) -> bool
    ensures { result ≡ are_named number release 0 items.now }
{
    for (i, item) in items.iter().enumerate() {
        if !is_at(number, release, i, &item.name) {
            return false;
        }
    }
    true
}

// Whether each of these texts is used, first in their order.
fn use_texts(count: usize, items: &[Item]) -> bool
    ensures { result ≡ use_texts 0 count items.now }
{
    let mut used = 0usize;
    for item in items {
        let text = item.text as usize;
        if text > used {
            return false;
        }
        if text == used {
            used += 1;
        }
    }
    used == count
}

fn is_among(text: &Bytes, texts: &[Bytes]) -> bool
    ensures { result ≡ is_among text.now texts.now }
{
    texts.iter().any(|other| *text == *other)
}

// Whether no text stands twice.
fn are_distinct(texts: &[Bytes]) -> bool
    ensures { result ≡ are_distinct texts.now }
{
    for (i, text) in texts.iter().enumerate() {
        if is_among(text, &texts[i + 1..]) {
            return false;
        }
    }
    true
}

// Whether each hold has 1 to 10 moderators.
fn have_moderators(holds: &[Hold]) -> bool
    ensures { result ≡ have_moderators holds.now }
{
    for hold in holds {
        let count = hold.moderators.len();
        if count < 1 || count > 10 {
            return false;
        }
    }
    true
}

impl Release {
    /// Whether this can be the release of this number of a submission: its items are named in order, its texts are
    /// distinct and stand in the order in which items first use them, and each hold has 1 to 10 moderators.
    pub fn is_release(&self, number: u64, release: u32) -> bool
        ensures { result ≡ is_release number release self.now }
    {
        are_named(number, release, self.items.as_slice())
            && use_texts(self.texts.len(), self.items.as_slice())
            && are_distinct(self.texts.as_slice())
            && have_moderators(self.holds.as_slice())
    }
}
