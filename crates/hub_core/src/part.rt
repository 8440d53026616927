// Where the input of an outcome differs from the one that is asked.
ghost use Rattle.std.specs.Prelude.{◌≡◌, ◌+◌, ◌==◌, ℕ, [], None, bytes_eq, option_copied};
ghost use Rattle.hub_core.specs.Setup.{texts_of};
ghost use Rattle.hub_core.specs.Differing.{place_where, bytes_differ, keys_differ, gates_differ, numbers_differ, options_differ, origins_differ, or_behind, submissions_differ, orgs_differ, first_difference};

use mail_names::{Gate, Items, Key, same_gate};
use mail_plan::{Outcome, Planner, ReleaseInput};
use mail_submission::{Origin, Submission};

/// A part of what a release is made from.
#[derive(Clone, Copy, Debug, PartialEq, Eq)]
pub enum Part {
    Epoch,
    Directory,
    Rules,
    Accepted,
    Made,
    Before,
    Opened,
    Origin,
    Reverse,
    Recipients,
    Content,
}

/// The first part that differs, and the least place at which its two lists differ or one of them ends. The place is 0 for
/// a number, and where only one has a value.
#[derive(Clone, Copy, Debug, PartialEq, Eq)]
pub struct Difference {
    pub part: Part,
    pub at: u64,
}

fn place_where<X: PartialEq>(a: &[X], b: &[X]) -> Option<usize>
    ensures { result ≡ place_where X.eq a.now b.now }
{
    let mut place = 0;
    while place < a.len() && place < b.len() && a[place] == b[place] {
        place += 1;
    }
    if place < a.len() || place < b.len() {
        Some(place)
    } else {
        None
    }
}

fn bytes_differ(a: &[u8], b: &[u8]) -> Option<usize>
    ensures { result ≡ bytes_differ a.now b.now }
{
    place_where(a, b)
}

fn keys_differ(a: &[Key], b: &[Key]) -> Option<usize>
    ensures { result ≡ keys_differ a.now b.now }
{
    place_where(a, b)
}

fn numbers_differ(a: u64, b: u64) -> Option<usize>
    ensures { result ≡ numbers_differ a b }
{
    if a == b { None } else { Some(0) }
}

fn gates_differ(a: &[Gate], b: &[Gate]) -> Option<usize>
    ensures { result ≡ gates_differ a.now b.now }
{
    let mut place = 0;
    while place < a.len() && place < b.len() && same_gate(&a[place], &b[place]) {
        place += 1;
    }
    if place < a.len() || place < b.len() {
        Some(place)
    } else {
        None
    }
}

// Where the gates that were opened before differ.
fn before_differs(a: &Option<Items<Gate>>, b: &Option<Items<Gate>>) -> Option<usize>
    ensures { result ≡ options_differ gates_differ a.now b.now }
{
    match (a, b) {
        (None, None) => None,
        (None, Some(_)) => Some(0),
        (Some(_), None) => Some(0),
        (Some(a), Some(b)) => gates_differ(a.as_slice(), b.as_slice()),
    }
}

fn origins_differ(a: &Origin, b: &Origin) -> Option<usize>
    ensures { result ≡ origins_differ a.now b.now }
{
    match (a, b) {
        (Origin::Smtp, Origin::Smtp) => None,
        (Origin::Smtp, Origin::Pickup { .. }) => Some(0),
        (Origin::Pickup { .. }, Origin::Smtp) => Some(0),
        (Origin::Pickup { mark }, Origin::Pickup { mark: other }) => {
            bytes_differ(mark.as_slice(), other.as_slice())
        }
    }
}

fn paths_differ(a: Option<&Key>, b: Option<&Key>) -> Option<usize>
    ensures { result ≡ options_differ bytes_differ (option_copied a.entry) (option_copied b.entry) }
{
    match (a, b) {
        (None, None) => None,
        (None, Some(_)) => Some(0),
        (Some(_), None) => Some(0),
        (Some(a), Some(b)) => bytes_differ(a.bytes(), b.bytes()),
    }
}

fn or_behind(part: Part, at: Option<usize>, behind: Option<Difference>) -> Option<Difference>
    ensures { result ≡ or_behind part at behind }
{
    match at {
        Some(at) => Some(Difference {
            part,
            at: at as u64,
        }),
        None => behind,
    }
}

fn submissions_differ(a: &Submission, b: &Submission) -> Option<Difference>
    ensures { result ≡ submissions_differ a.now b.now }
{
    let origin = origins_differ(a.origin(), b.origin());
    let reverse = paths_differ(a.reverse(), b.reverse());
    let recipients = keys_differ(a.recipients(), b.recipients());
    let content = or_behind(Part::Content, bytes_differ(a.bytes(), b.bytes()), None);
    let recipients = or_behind(Part::Recipients, recipients, content);
    let reverse = or_behind(Part::Reverse, reverse, recipients);
    or_behind(Part::Origin, origin, reverse)
}

// Where the moments and the gates of two inputs differ, or else what differs behind.
fn times_differ(
    a: &ReleaseInput,
    b: &ReleaseInput,
    behind: Option<Difference>,
) -> Option<Difference>
    ensures { result ≡ or_behind Part.Accepted (numbers_differ a.now.accepted_at b.now.accepted_at) (or_behind Part.Made (numbers_differ a.now.made b.now.made) (or_behind Part.Before (options_differ gates_differ a.now.before b.now.before) (or_behind Part.Opened (gates_differ a.now.opened b.now.opened) behind))) }
{
    let opened = or_behind(Part::Opened, gates_differ(a.opened(), b.opened()), behind);
    let before = or_behind(Part::Before, before_differs(a.before(), b.before()), opened);
    let made = or_behind(Part::Made, numbers_differ(a.made(), b.made()), before);
    or_behind(
        Part::Accepted,
        numbers_differ(a.accepted_at(), b.accepted_at()),
        made,
    )
}

fn orgs_differ<T: Planner>(
    org: &T::Org,
    other: &T::Org,
    behind: Option<Difference>,
) -> Option<Difference>
    ensures { result ≡ orgs_differ (texts_of T.means org.now) (texts_of T.means other.now) behind }
{
    let (directory, rules) = T::texts(org);
    let (other_directory, other_rules) = T::texts(other);
    let rules = or_behind(Part::Rules, bytes_differ(rules, other_rules), behind);
    or_behind(
        Part::Directory,
        bytes_differ(directory, other_directory),
        rules,
    )
}

/// Where an outcome's input, or its organisation, differs from these.
pub fn first_difference<T: Planner>(
    input: &ReleaseInput,
    org: &T::Org,
    outcome: &Outcome<T>,
) -> Option<Difference>
    ensures { result ≡ first_difference input.now (texts_of T.means org.now) outcome.now.input (texts_of T.means outcome.now.org) }
{
    let made_from = outcome.input();
    let submissions = submissions_differ(input.submission(), made_from.submission());
    let times = times_differ(input, made_from, submissions);
    let orgs = orgs_differ::<T>(org, outcome.org(), times);
    or_behind(
        Part::Epoch,
        numbers_differ(input.epoch() as u64, made_from.epoch() as u64),
        orgs,
    )
}
