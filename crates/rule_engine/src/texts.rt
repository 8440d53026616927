// Distinct texts, each at its place.
ghost use Rattle.std.specs.Prelude.{◌≡◌, ◌++◌, ◌∷◌, [], ℕ, List, fold, true, false, IfOk, OnOk, OnErr, MatchOption, slice_get, bytes_eq};
ghost use Rattle.sha2.specs.Sha256.{sha256};
ghost use Rattle.rule_engine.specs.Run.{is_text, place_of, with_text};
ghost use Rattle.rule_engine.specs.Index.{IsIndex, found_or, place_at, stands_at};

use mail_names::{Bytes, Items, NoMemory, short_count};
use sha2::{Digest, Sha256};
use std::alloc::Global;
use std::collections::BTreeMap;
use std::marker::Model;

/// Distinct texts, in the order of first use. Contracts see them as their list.
///
/// `index` has a place for each digest. So a look-up takes one pass over the text and a search in a tree. It scans all
/// texts only where two different ones have one SHA-256 digest.
#[derive(Drop)]
pub struct Texts {
    texts: Vec<Bytes>,
    index: BTreeMap<[u8; 32], usize>,
}

impl Model for Texts {
    ghost use Rattle.std.specs.Prelude.{List, ℕ};
    ghost use Rattle.rule_engine.specs.Index.{IsIndex};

    ghost Value = { List (List ℕ) };

    ghost view = { λ t. t.texts.items };

    ghost invariant = { λ t. IsIndex t.index t.texts.items };
}

// The place of a text, where it is one of these.
pub fn find(texts: &[Bytes], text: &Bytes) -> Option<usize>
    ensures { MatchOption result (is_text texts.now text.now ≡ false)
        (λ i. (is_text texts.now text.now ≡ true) × (place_of texts.now text.now ≡ i)) }
{
    for (i, other) in texts.iter().enumerate() {
        if *text == *other {
            return Some(i);
        }
    }
    None
}

fn digest_of(text: &[u8]) -> [u8; 32]
    ensures { result ≡ sha256 text.now }
{
    let mut hasher = Sha256::new();
    hasher.update(text);
    hasher.finalize()
}

fn stands_at(texts: &[Bytes], place: usize, text: &Bytes) -> bool
    ensures { result ≡ stands_at (slice_get texts.now place) text.now }
{
    match texts.get(place) {
        None => false,
        Some(other) => *text == *other,
    }
}

// The same as `find`, by the digest of the text.
fn find_by(
    texts: &[Bytes],
    index: &BTreeMap<[u8; 32], usize>,
    digest: &[u8; 32],
    text: &Bytes,
) -> Option<usize>
    requires indexed { IsIndex index.now texts.now }
    requires own { digest.now ≡ sha256 text.now }
    ensures { MatchOption result (is_text texts.now text.now ≡ false)
        (λ i. (is_text texts.now text.now ≡ true) × (place_of texts.now text.now ≡ i)) }
{
    match index.get(digest) {
        None => None,
        Some(place) => {
            if stands_at(texts, *place, text) {
                Some(*place)
            } else {
                find(texts, text)
            }
        }
    }
}

// Puts the place under its digest, unless one stands there.
fn note(
    index: &mut BTreeMap<[u8; 32], usize>,
    digest: [u8; 32],
    place: usize,
) -> Result<(), NoMemory>
    ensures ok { OnOk result ((other : List ℕ) → place_at index.new other ≡ found_or (place_at index.old other) (bytes_eq digest other) place) }
    ensures err { OnErr result (index.new.entries ≡ index.old.entries) }
{
    if !index.contains_key(&digest) {
        index.insert(digest, place)?;
    }
    Ok(())
}

impl Texts {
    /// No texts. It takes no memory.
    pub fn new(alloc: Global) -> Texts
        ensures { result ≡ [] }
    {
        Texts {
            texts: Vec::new(alloc),
            index: BTreeMap::new(alloc),
        }
    }

    // Puts a text that isn't there behind the others.
    fn add(&mut self, digest: [u8; 32], text: Bytes) -> Result<(), NoMemory>
        requires new { is_text self.old text ≡ false }
        requires own { digest ≡ sha256 text }
        ensures { OnOk result (self.new ≡ self.old ++ text ∷ []) }
    {
        let place = self.texts.len();
        self.texts.push(text)?;
        if let Err(fault) = note(&mut self.index, digest, place) {
            self.texts.pop();
            return Err(fault);
        }
        Ok(())
    }

    /// The place of a text, which is added unless it is there. It stays there as texts are added.
    pub fn place(&mut self, alloc: Global, text: &Bytes) -> Result<u32, NoMemory>
        ensures texts { OnOk result (self.new ≡ with_text self.old text.now) }
        ensures place { IfOk result (λ place. (later : List (List ℕ)) → place ≡ place_of (fold with_text self.new later) text.now) }
    {
        let digest = digest_of(text.as_slice());
        if let Some(i) = find_by(&self.texts, &self.index, &digest, text) {
            let found = short_count(i)?;
            return Ok(found);
        }
        let added = short_count(self.texts.len())?;
        self.add(digest, Bytes::of(alloc, text.as_slice())?)?;
        Ok(added)
    }

    /// Gives the texts up. It takes no memory.
    pub fn into_items(self) -> Items<Bytes>
        ensures { result ≡ self }
    {
        let Texts { texts, index: _ } = self;
        Items::from_vec(texts)
    }
}
