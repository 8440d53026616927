// Items with their texts.
ghost use Rattle.std.specs.Prelude.{◌≡◌, [], IfOk, unwrap_or, slice_get};

use mail_names::{Bytes, ItemName, Key, NoMemory, SharedBytes};
use std::alloc::Global;

/// An item of a release, with its text.
#[derive(Drop)]
pub struct QueuedItem {
    pub name: ItemName,
    pub folder: Key,
    pub text: SharedBytes,
}

/// The text at this place among those of a release.
pub fn text_of(texts: &[SharedBytes], place: u32, alloc: Global) -> Result<SharedBytes, NoMemory>
    ensures { IfOk result (λ text. text ≡ unwrap_or (slice_get texts.now place) []) }
{
    match texts.get(place as usize) {
        Some(text) => text.share(),
        None => SharedBytes::new(alloc, Bytes::new(alloc)),
    }
}

/// Texts, as items share them.
pub fn shared_texts(alloc: Global, texts: Vec<Bytes>) -> Result<Vec<SharedBytes>, NoMemory>
    ensures { IfOk result (λ shared. shared.items ≡ texts.items) }
{
    let mut shared = Vec::new(alloc);
    for text in texts {
        shared.push(SharedBytes::new(alloc, text)?)?;
    }
    Ok(shared)
}
