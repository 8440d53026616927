// The fates of all leaves, with each distinct text once.
ghost use Rattle.std.specs.Prelude.{◌≡◌, ◌≤◌, ◌++◌, ℕ, List, length, fold, map, IfOk, OnOk, option_copied};
ghost use Rattle.rule_engine.specs.Run.{run_of, outcomes, with_text, end_texts, copy_text, placed_end, placed_copies};

use crate::recipient::{End, MadeCopy};
use crate::sets::outcomes;
use crate::texts::Texts;
use group_expand::{Leaf, MOST_LEAVES};
use mail_message::Message;
use mail_names::{Bytes, Gate, Items, Key, NoMemory};
use org_directory::Directory;
use rule_terms::RuleBook;
use std::alloc::Global;

/// What becomes of a leaf. A text is named by its place among the texts of the run, a rule by its place in the book.
#[derive(Drop)]
pub enum Fate {
    /// It gets the text.
    Keep { text: u32 },
    /// The target gets the text.
    Redirect { target: Key, text: u32, rule: u32 },
    /// It is rejected with the code `5.7.CODE` and these words.
    Reject { rule: u32, code: u32, words: Bytes },
    /// It waits for the gate of this rule.
    Held { rule: u32 },
}

/// A copy that a rule made for a leaf.
#[derive(Drop)]
pub struct SideCopy {
    /// The place of the leaf.
    pub leaf: u32,
    pub target: Key,
    pub text: u32,
    pub rule: u32,
}

/// What the rules make of all leaves.
#[derive(Drop)]
pub struct Run {
    /// Each distinct text once, in the order of first use: leaf by leaf, and in a leaf its copies before its fate.
    pub texts: Items<Bytes>,
    /// The fate of each leaf, in the order of the leaves.
    pub fates: Items<Fate>,
    /// The copies of all leaves, in the order of the leaves.
    pub copies: Items<SideCopy>,
}

// Adds the copies of a leaf.
fn add_copies(
    alloc: Global,
    texts: &mut Texts,
    leaf: u32,
    copies: &[MadeCopy],
    into: &mut Items<SideCopy>,
) -> Result<(), NoMemory>
    ensures texts { OnOk result (texts.new ≡ fold with_text texts.old (map copy_text copies.now)) }
    ensures copies { OnOk result ((later : List (List ℕ)) →
        into.new ≡ into.old ++ placed_copies (fold with_text texts.new later) leaf copies.now) }
{
    for copied in copies {
        let text = texts.place(alloc, copied.text.bytes())?;
        let target = copied.target.copy(alloc)?;
        into.push(SideCopy {
            leaf,
            target,
            text,
            rule: copied.rule,
        })?;
    }
    Ok(())
}

// The end of a leaf's fold, with the place of its text.
fn placed_end(alloc: Global, texts: &mut Texts, end: &End) -> Result<Fate, NoMemory>
    ensures texts { OnOk result (texts.new ≡ fold with_text texts.old (end_texts end.now)) }
    ensures fate { IfOk result (λ fate. (later : List (List ℕ)) → fate ≡ placed_end (fold with_text texts.new later) end.now) }
{
    match end {
        End::Keep { text } => Ok(Fate::Keep {
            text: texts.place(alloc, text.bytes())?,
        }),
        End::Redirect { target, text, rule } => {
            let target = target.copy(alloc)?;
            let text = texts.place(alloc, text.bytes())?;
            Ok(Fate::Redirect {
                target,
                text,
                rule: *rule,
            })
        }
        End::Reject { rule, code, words } => Ok(Fate::Reject {
            rule: *rule,
            code: *code,
            words: Bytes::of(alloc, words.as_slice())?,
        }),
        End::Held { rule } => Ok(Fate::Held { rule: *rule }),
    }
}

/// What the rules make of each leaf, for this sender, at this moment, with these gates opened. Each leaf is judged by
/// itself, with the whole message.
pub fn run_rules(
    alloc: Global,
    book: &RuleBook,
    directory: &Directory,
    sender: Option<&Key>,
    leaves: &[Leaf],
    message: &Message,
    moment: u64,
    opened: &[Gate],
) -> Result<Run, NoMemory>
    requires leaves { length leaves.now ≤ MOST_LEAVES }
    ensures { IfOk result (λ run. run ≡
        run_of (outcomes book.now.rules (record { directory = directory.now; sender = option_copied sender.entry; moment = moment }) message.now opened.now leaves.now)) }
{
    let rules = book.rules();
    let mut texts = Texts::new(alloc);
    let mut fates = Items::new(alloc);
    let mut copies = Items::new(alloc);
    let all = outcomes(
        alloc, rules, directory, sender, moment, opened, message, leaves,
    )?;
    for (i, outcome) in all.as_slice().iter().enumerate() {
        let made = outcome.copies.as_slice();
        add_copies(alloc, &mut texts, i as u32, made, &mut copies)?;
        let fate = placed_end(alloc, &mut texts, &outcome.end)?;
        fates.push(fate)?;
    }
    Ok(Run {
        texts: texts.into_items(),
        fates,
        copies,
    })
}
