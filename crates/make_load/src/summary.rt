// The summary lines of commands.
ghost use Rattle.std.specs.Prelude.{◌≡◌, ◌++◌, ◌∷◌, [], map, IfOk};
ghost use Rattle.make_load.specs.Summaries.{counted, make_text, turn_text};

use mail_names::{Bytes, NoMemory};
use std::alloc::Global;

// A line of words, each with its count behind it.
fn line_of(alloc: Global, counts: &[(&str, u64)]) -> Result<Bytes, NoMemory>
    ensures { IfOk result (λ line. line ≡ counted (map (λ c. (c.0.now, c.1)) counts.now) ++ 10 ∷ []) }
{
    let mut line = Bytes::new(alloc);
    for (word, count) in counts {
        let piece = format!(in alloc; "{word}{count}")?;
        line.add(piece.as_bytes())?;
    }
    line.add(b"\n")?;
    Ok(line)
}

/// What became of a load.
#[derive(Clone, Copy, Debug, PartialEq, Eq)]
pub struct MakeSummary {
    /// How many submissions the command was asked for.
    pub asked: u32,
    /// How many submissions were accepted.
    pub submissions: u64,
    /// How many approvals were taken.
    pub approvals: u64,
    /// How many releases were categorised.
    pub releases: u64,
    /// How many items its turns marked as delivered.
    pub delivered: u64,
    /// How many items wait behind the last turn.
    pub waiting: u64,
    /// How many items its turns ended.
    pub ended: u64,
}

impl MakeSummary {
    /// The line that `make` prints.
    pub fn text(&self, alloc: Global) -> Result<Bytes, NoMemory>
        ensures { IfOk result (λ text. text ≡ make_text self.now) }
    {
        let counts = [
            ("make ", u64::from(self.asked)),
            (": submissions ", self.submissions),
            (", approvals ", self.approvals),
            (", releases ", self.releases),
            (", delivered ", self.delivered),
            (", waiting ", self.waiting),
            (", ended ", self.ended),
        ];
        line_of(alloc, &counts)
    }
}

/// What a turn did.
#[derive(Clone, Copy, Debug, PartialEq, Eq)]
pub struct TurnSummary {
    /// The turn's moment, in seconds since 1970-01-01T00:00:00Z.
    pub moment: u64,
    /// How many new submissions were taken from the pickup folder.
    pub accepted: u64,
    /// How many releases were categorised.
    pub categorised: u64,
    /// How many items the turn marked as delivered.
    pub delivered: u64,
    /// How many items wait behind it.
    pub waiting: u64,
    /// How many items it ended.
    pub ended: u64,
}

impl TurnSummary {
    /// The line that `turn` prints.
    pub fn text(&self, alloc: Global) -> Result<Bytes, NoMemory>
        ensures { IfOk result (λ text. text ≡ turn_text self.now) }
    {
        let counts = [
            ("turn ", self.moment),
            (": accepted ", self.accepted),
            (", categorised ", self.categorised),
            (", delivered ", self.delivered),
            (", waiting ", self.waiting),
            (", ended ", self.ended),
        ];
        line_of(alloc, &counts)
    }
}
