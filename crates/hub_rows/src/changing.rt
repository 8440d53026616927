// Rows that change how the hub stands.
use crate::silent::Silent;
use crate::words::{
    applied, approval, both, cut, key, keys, number, small, submission, tell, verdict,
};
use hub_core::{Limits, State};
use log_entry::Entry;
use mail_names::{Bytes, Gate, Items, NoMemory};
use mail_plan::{FIRST_DIRECTORY, Hold, Release};
use std::alloc::Global;

/// An empty history, with the most live organisations that it may have.
pub fn start(alloc: Global, state: &mut State<Silent>, words: &str) -> Result<Bytes, NoMemory> {
    let limits = Limits {
        epochs: number(words)?,
        ..Limits::usual()
    };
    *state = State::start(alloc, limits)?;
    Bytes::of(alloc, b"started")
}

// The entry of an organisation with these rules.
fn organised(alloc: Global, rules: &str) -> Result<Entry, NoMemory> {
    Ok(Entry::Organised {
        directory: Bytes::of(alloc, FIRST_DIRECTORY)?,
        rules: Bytes::of(alloc, rules.as_bytes())?,
    })
}

/// The first directory with these rules.
pub fn organise(alloc: Global, state: &mut State<Silent>, rules: &str) -> Result<Bytes, NoMemory> {
    let reply = state.judge_organise(alloc, FIRST_DIRECTORY, rules.as_bytes())?;
    let applied = state.apply(alloc, organised(alloc, rules)?);
    both(alloc, reply, applied)
}

/// A submission: the number of the one that it repeats, if it repeats one, the reply, and whether its entry applies.
pub fn submit(alloc: Global, state: &mut State<Silent>, words: &str) -> Result<Bytes, NoMemory> {
    let (mark, rest) = cut(words);
    let (sender, rest) = cut(rest);
    let (recipients, text) = cut(rest);
    let submission = submission(alloc, mark, sender, recipients, text)?;
    let repeated = state.repeat_of(&submission).unwrap_or(0);
    let reply = state.judge_submit(&submission);
    let moment = 7;
    let applied = state.apply(alloc, Entry::Accepted { moment, submission });
    let mut out = both(alloc, reply, applied)?;
    if repeated > 0 {
        let text = format!(in alloc; "; repeats {repeated}")?;
        out.add(text.as_bytes())?;
    }
    Ok(out)
}

fn hold(alloc: Global, place: u32, told: &str) -> Result<Hold, NoMemory> {
    Ok(Hold {
        gate: Gate::Rule { place },
        label: Bytes::of(alloc, b"lists")?,
        moderators: keys(alloc, "mia@a,max@a")?,
        tell: tell(told)?,
    })
}

// Holds, from the places of their rules and whom they tell.
fn holds(alloc: Global, words: &str) -> Result<Items<Hold>, NoMemory> {
    let mut holds = Items::new(alloc);
    let mut place = None;
    for word in words.split_whitespace() {
        match place {
            None => place = Some(small(word)?),
            Some(rule) => {
                holds.push(hold(alloc, rule, word)?)?;
                place = None;
            }
        }
    }
    Ok(holds)
}

/// A release with these holds.
pub fn categorise(
    alloc: Global,
    state: &mut State<Silent>,
    words: &str,
) -> Result<Bytes, NoMemory> {
    let (first, rest) = cut(words);
    let (second, rest) = cut(rest);
    let plan = Release {
        texts: Items::new(alloc),
        items: Items::new(alloc),
        holds: holds(alloc, rest)?,
        ends: Items::new(alloc),
    };
    let entry = Entry::Categorised {
        number: number(first)?,
        release: small(second)?,
        plan,
    };
    applied(alloc, state.apply(alloc, entry))
}

/// A decision.
pub fn decide(alloc: Global, state: &mut State<Silent>, words: &str) -> Result<Bytes, NoMemory> {
    let (name, rest) = cut(words);
    let (by, rest) = cut(rest);
    let (said, clock) = cut(rest);
    let approval = approval(name)?;
    let by = key(alloc, by)?;
    let verdict = verdict(said)?;
    let moment = number(clock)?;
    let reply = state.judge_decide(&approval, &by, verdict, moment);
    let entry = Entry::Decided {
        approval,
        by,
        verdict,
        moment,
    };
    both(alloc, reply, state.apply(alloc, entry))
}

/// A turn.
pub fn moment(alloc: Global, state: &mut State<Silent>, words: &str) -> Result<Bytes, NoMemory> {
    let moment = number(words)?;
    applied(alloc, state.apply(alloc, Entry::Moment { moment }))
}
