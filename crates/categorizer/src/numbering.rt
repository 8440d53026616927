// Names of items, and places of texts.
ghost use Rattle.std.specs.Prelude.{◌≡◌, ◌++◌, ◌∷◌, [], ℕ, List, fold, IfOk, OnOk};
ghost use Rattle.rule_engine.specs.Run.{distinct, with_text};
ghost use Rattle.categorizer.specs.Releasing.{draft_texts, item_of, items_from};

use crate::drafts::name_at;
use crate::parts::Draft;
use mail_names::{Bytes, ItemName, Items, NoMemory, short_count};
use mail_plan::Item;
use rule_engine::Texts;
use std::alloc::Global;

// Adds an item, and its text unless it is there.
fn add_item(
    alloc: Global,
    name: ItemName,
    draft: &Draft,
    texts: &mut Texts,
    items: &mut Items<Item>,
) -> Result<(), NoMemory>
    ensures texts { OnOk result (texts.new ≡ with_text texts.old draft.now.text) }
    ensures items { OnOk result ((later : List (List ℕ)) →
        items.new ≡ items.old ++ item_of name (fold with_text texts.new later) draft.now ∷ []) }
{
    let text = texts.place(alloc, draft.text.bytes())?;
    let folder = draft.folder.copy(alloc)?;
    let why = draft.why.copy(alloc)?;
    items.push(Item {
        name,
        folder,
        kind: draft.kind,
        why,
        text,
    })?;
    Ok(())
}

/// The distinct texts of the drafts in the order of first use, and the items with their names.
pub fn numbered(
    alloc: Global,
    submission: u64,
    release: u32,
    drafts: &[Draft],
) -> Result<(Items<Bytes>, Items<Item>), NoMemory>
    ensures texts { IfOk result (λ made. made.0 ≡ distinct (draft_texts drafts.now)) }
    ensures items { IfOk result (λ made. made.1 ≡ items_from submission release 0 (distinct (draft_texts drafts.now)) drafts.now) }
{
    let mut texts = Texts::new(alloc);
    let mut items = Items::new(alloc);
    for (i, draft) in drafts.iter().enumerate() {
        let name = name_at(submission, release, short_count(i)?);
        add_item(alloc, name, draft, &mut texts, &mut items)?;
    }
    Ok((texts.into_items(), items))
}
