// Journal reports, read.
ghost use Rattle.std.specs.Prelude.{◌≡◌, ◌<◌, ◌^◌, ◌++◌, ℕ, true, false, length, decimal, Some, IfSome, IfOk, ◌≤◌, ◌∷◌, bytes_eq, map, List, Option};
ghost use Rattle.std.specs.Str.{all_ascii_digits};
ghost use Rattle.std.specs.Str.Parse.{digits_value};
ghost use Rattle.std.specs.Option.{SomeIff};
ghost use Rattle.std.specs.List.{AllByRecursion, list_all};
ghost use Rattle.mail_names.specs.Key.{IsKey};
ghost use Rattle.mail_names.specs.Names.{IsItemName, name_text};
ghost use Rattle.mail_names.specs.declared.name.ItemName.{ItemName};
ghost use Rattle.journal_report.specs.declared.why.Why.{Why};
ghost use Rattle.journal_report.specs.declared.parts.Line.{Line};
ghost use Rattle.journal_report.specs.declared.parts.ReportHead.{ReportHead};
ghost use Rattle.journal_report.specs.Why.{route_text, steps_text, why_text};
ghost use Rattle.journal_report.specs.Report.{sender_text, target_line, report_text};
ghost use Rattle.journal_report.specs.Reports.{is_clean, has_route, is_report, FitsHead, FitsWhy, FitsLine, Told};
ghost use Rattle.journal_report.specs.Reading.{TellsHead, target_lines, is_forwarded, is_target};
ghost use Rattle.mail_names.specs.Steps.{has_forward, is_forward};
ghost use Rattle.mail_names.specs.declared.route.Step.{Step};

use crate::cuts::{
    before_space, behind, behind_line, behind_step, from_space, is_forwarded, is_target, line_of,
    original_part, parts_of, targets_part,
};
use crate::{Line, Report, ReportHead, Why, report};
use mail_names::{
    Bytes, How, ItemName, Items, Key, LAST_MOMENT, NameFault, NoMemory, Step, has_forward,
    keys_of_steps,
};
use std::alloc::Global;

/// Why bytes aren't given as a report.
#[derive(Clone, Copy, Debug, PartialEq, Eq)]
pub enum ReportFault {
    /// They are no report's.
    NotReport,
    NoMemory,
}

impl From<NoMemory> for ReportFault {
    ghost use Rattle.std.specs.Prelude.{◌≡◌};
    ghost use Rattle.journal_report.specs.declared.reading.ReportFault.TheVariants as faults;

    ghost from_gives = { λ _ e. e ≡ faults.NoMemory };

    fn from(_: NoMemory) -> Self {
        ReportFault::NoMemory
    }
}

// The value of these digits.
fn value_of(digits: &[u8]) -> Option<u64>
    requires { all_ascii_digits digits.now ≡ true }
    ensures { SomeIff result (digits_value 10 digits.now < 2 ^ 64) (digits_value 10 digits.now) }
{
    let mut value = 0u64;
    for digit in digits {
        value = value
            .checked_mul(10)?
            .checked_add(u64::from(*digit - b'0'))?;
    }
    Some(value)
}

fn all_digits(text: &[u8]) -> bool
    ensures { result ≡ all_ascii_digits text.now }
{
    for b in text {
        if !b.is_ascii_digit() {
            return false;
        }
    }
    true
}

// The number that these bytes write.
fn number(text: &[u8]) -> Option<u64>
    ensures { (n : ℕ) → n < 2 ^ 64 → text.now ≡ decimal n → result ≡ Some n }
{
    if all_digits(text) {
        value_of(text)
    } else {
        None
    }
}

// The key that these bytes are.
fn key(alloc: Global, text: &[u8]) -> Result<Key, ReportFault>
    ensures { IsKey text.now → Told (λ k. k ≡ text.now) result }
{
    match Key::read(alloc, text) {
        Ok(key) => Ok(key),
        Err(NameFault::NoMemory) => Err(ReportFault::NoMemory),
        Err(_) => Err(ReportFault::NotReport),
    }
}

fn sender(alloc: Global, text: &[u8]) -> Result<Option<Key>, ReportFault>
    ensures { (sender : Option (List ℕ)) → IfSome sender IsKey → text.now ≡ sender_text sender → Told (λ s. s ≡ sender) result }
{
    match text {
        b"<>" => Ok(None),
        _ => match key(alloc, text) {
            Ok(key) => Ok(Some(key)),
            Err(fault) => Err(fault),
        },
    }
}

fn rule(text: &[u8]) -> Result<u32, ReportFault>
    ensures { (n : ℕ) → n < 2 ^ 32 → text.now ≡ decimal n → Told (λ r. r ≡ n) result }
{
    match number(text) {
        Some(number) => u32::try_from(number).map_err(|_| ReportFault::NotReport),
        None => Err(ReportFault::NotReport),
    }
}

#[derive(Drop)]
struct FirstStep<'a> {
    step: Step,
    rest: &'a [u8],
}

fn how(behind_key: &[u8]) -> How
    ensures { is_forward result ≡ is_forwarded behind_key.now }
{
    if is_forwarded(behind_key) {
        How::Forwarded
    } else {
        How::Expanded
    }
}

// The first step of a route, and the route of those behind it.
fn first_step(alloc: Global, route: &[u8]) -> Result<FirstStep<'_>, ReportFault>
    requires { 0 < length route.now }
    ensures told { (step : Step) (others : List Step) → IsKey step.key → route.now ≡ steps_text (step ∷ others) →
        Told (λ f. (f.step ≡ step) × (f.rest.now ≡ steps_text others)) result }
    ensures shorter { IfOk result (λ f. length f.rest.now < length route.now) }
{
    let behind_key = from_space(route);
    let how = how(behind_key);
    match key(alloc, before_space(route)) {
        Ok(key) => Ok(FirstStep {
            step: Step { key, how },
            rest: behind_step(how, behind_key),
        }),
        Err(fault) => Err(fault),
    }
}

// The steps of a route.
fn steps(alloc: Global, text: &[u8]) -> Result<Items<Step>, ReportFault>
    ensures { (steps : List Step) → AllByRecursion (λ s. IsKey s.key) steps → text.now ≡ steps_text steps → Told (λ g. g ≡ steps) result }
{
    let mut steps = Items::new(alloc);
    let mut rest = text;
    'steps: while !rest.is_empty() {
        match first_step(alloc, rest) {
            Ok(FirstStep { step, rest: behind }) => {
                steps.push(step)?;
                rest = behind;
            }
            Err(fault) => return Err(fault),
        }
    }
    Ok(steps)
}

// A route of steps, where one was forwarded, and else of groups.
fn routed(alloc: Global, steps: Items<Step>) -> Result<Why, NoMemory>
    ensures through { has_forward steps ≡ true → IfOk result (λ w. w ≡ Why.Through steps) }
    ensures via { has_forward steps ≡ false → IfOk result (λ w. w ≡ Why.Via (map (λ s. s.key) steps)) }
{
    if has_forward(steps.as_slice()) {
        return Ok(Why::Through { steps });
    }
    let groups = keys_of_steps(alloc, steps.as_slice())?;
    Ok(Why::Via { groups })
}

fn via(alloc: Global, text: &[u8]) -> Result<Why, ReportFault>
    ensures groups { (keys : List (List ℕ)) → AllByRecursion IsKey keys → text.now ≡ route_text keys → Told (λ w. w ≡ Why.Via keys) result }
    ensures steps { (steps : List Step) → AllByRecursion (λ s. IsKey s.key) steps → has_forward steps ≡ true → text.now ≡ steps_text steps →
        Told (λ w. w ≡ Why.Through steps) result }
{
    match steps(alloc, text) {
        Ok(steps) => Ok(routed(alloc, steps)?),
        Err(fault) => Err(fault),
    }
}

fn why(alloc: Global, text: &[u8]) -> Result<Why, ReportFault>
    ensures { (why : Why) → FitsWhy why → text.now ≡ why_text why → Told (λ w. w ≡ why) result }
{
    if text.is_empty() {
        return Ok(Why::Direct);
    }
    if text.starts_with(b" via ") {
        return via(alloc, behind(text, 5));
    }
    if text.starts_with(b" copied by rule ") {
        return match rule(behind(text, 16)) {
            Ok(rule) => Ok(Why::Copied { rule }),
            Err(fault) => Err(fault),
        };
    }
    match rule(behind(text, 20)) {
        Ok(rule) => Ok(Why::Redirected { rule }),
        Err(fault) => Err(fault),
    }
}

// The target that a line names.
fn target(alloc: Global, text: &[u8]) -> Result<Line, ReportFault>
    ensures { (line : Line) → FitsLine line → text.now ≡ target_line line → Told (λ l. l ≡ line) result }
{
    let text = behind(text, 11);
    match key(alloc, before_space(text)) {
        Ok(target) => match why(alloc, from_space(text)) {
            Ok(why) => Ok(Line { target, why }),
            Err(fault) => Err(fault),
        },
        Err(fault) => Err(fault),
    }
}

#[derive(Drop)]
struct Targets<'a> {
    lines: Items<Line>,
    rest: &'a [u8],
}

// The targets that these lines name, and what stands behind them.
fn read_targets(alloc: Global, bytes: &[u8]) -> Result<Targets<'_>, ReportFault>
    ensures { (lines : List Line) (rest : List ℕ) → AllByRecursion FitsLine lines → is_target rest ≡ false →
        bytes.now ≡ target_lines lines ++ rest → Told (λ t. (t.lines ≡ lines) × (t.rest.now ≡ rest)) result }
{
    let mut lines = Items::new(alloc);
    let mut rest = bytes;
    'targets: while is_target(rest) {
        match target(alloc, line_of(rest)) {
            Ok(line) => lines.push(line)?,
            Err(fault) => return Err(fault),
        }
        rest = behind_line(rest);
    }
    Ok(Targets { lines, rest })
}

// The name that this text is.
fn item_name(text: &[u8]) -> Option<ItemName>
    ensures { (name : ItemName) → IsItemName name → text.now ≡ name_text name → result ≡ Some name }
{
    let ItemName {
        submission,
        release,
        place,
        mark,
    } = ItemName::read(text)?;
    Some(ItemName {
        submission,
        release,
        place,
        mark,
    })
}

fn head(alloc: Global, bytes: &[u8]) -> Result<ReportHead, ReportFault>
    ensures { (h : ReportHead) → FitsHead h → h.moment < 2 ^ 64 → TellsHead bytes.now h → Told (λ r. r ≡ h) result }
{
    let parts = parts_of(bytes);
    let Some(name) = item_name(parts.name) else {
        return Err(ReportFault::NotReport);
    };
    let Some(moment) = number(parts.moment) else {
        return Err(ReportFault::NotReport);
    };
    let mailbox = match key(alloc, parts.mailbox) {
        Ok(mailbox) => mailbox,
        Err(fault) => return Err(fault),
    };
    let sender = match sender(alloc, parts.sender) {
        Ok(sender) => sender,
        Err(fault) => return Err(fault),
    };
    Ok(ReportHead {
        name,
        moment,
        mailbox,
        sender,
        message_id: Bytes::of(alloc, parts.id)?,
        subject: Bytes::of(alloc, parts.subject)?,
    })
}

// What the bytes are the report of, if they are one's.
fn candidate(alloc: Global, bytes: &[u8]) -> Result<Report, ReportFault>
    ensures { (head : ReportHead) (lines : List Line) (original : List ℕ) → FitsHead head → AllByRecursion FitsLine lines →
        is_report head lines ≡ true → bytes.now ≡ report_text head lines original →
        Told (λ r. r ≡ record { head = head; lines = lines; original = original }) result }
{
    let head = match head(alloc, bytes) {
        Ok(head) => head,
        Err(fault) => return Err(fault),
    };
    match read_targets(alloc, targets_part(bytes)) {
        Ok(Targets { lines, rest }) => Ok(Report {
            head,
            lines,
            original: Bytes::of(alloc, original_part(bytes, rest))?,
        }),
        Err(fault) => Err(fault),
    }
}

fn is_clean(text: &[u8]) -> bool
    ensures { result ≡ is_clean text.now }
{
    text.iter().all(|b| *b >= 32 && *b != 127)
}

fn has_route(why: &Why) -> bool
    ensures { result ≡ has_route why.now }
{
    match why {
        Why::Via { groups } => !groups.as_slice().is_empty(),
        Why::Through { steps } => has_forward(steps.as_slice()),
        _ => true,
    }
}

fn all_have_routes(lines: &[Line]) -> bool
    ensures { result ≡ list_all (λ line. has_route line.why) lines.now }
{
    for line in lines {
        if !has_route(&line.why) {
            return false;
        }
    }
    true
}

fn is_report(report: &Report) -> bool
    ensures { result ≡ is_report report.now.head report.now.lines }
{
    let Report { head, lines, .. } = report;
    let lines = lines.as_slice();
    head.moment <= LAST_MOMENT
        && is_clean(head.message_id.as_slice())
        && is_clean(head.subject.as_slice())
        && !lines.is_empty()
        && lines.len() < 4_294_967_296
        && all_have_routes(lines)
}

// Whether the bytes are those of the report.
fn is_text(alloc: Global, candidate: &Report, bytes: &[u8]) -> Result<bool, NoMemory>
    requires { candidate.now.head.moment ≤ LAST_MOMENT }
    ensures { IfOk result (λ is. is ≡ bytes_eq (report_text candidate.now.head candidate.now.lines candidate.now.original) bytes.now) }
{
    let text = report(
        alloc,
        &candidate.head,
        candidate.lines.as_slice(),
        candidate.original.as_slice(),
    )?;
    Ok(text.as_slice() == bytes)
}

/// The report that these bytes are, if they are one's.
///
/// A report has 1 to 2^32 - 1 targets, a moment by the last one, an id and a subject without control bytes, and a
/// group wherever a target is a member of one. Where a mailbox forwarded it, the steps of its route say which.
pub fn read_report(alloc: Global, bytes: &[u8]) -> Result<Report, ReportFault>
    ensures ok { IfOk result (λ r. (is_report r.head r.lines ≡ true) × (bytes.now ≡ report_text r.head r.lines r.original)) }
    ensures only { (head : ReportHead) (lines : List Line) (original : List ℕ) → FitsHead head → AllByRecursion FitsLine lines →
        is_report head lines ≡ true → bytes.now ≡ report_text head lines original →
        Told (λ r. r ≡ record { head = head; lines = lines; original = original }) result }
{
    let report = match candidate(alloc, bytes) {
        Ok(report) => report,
        Err(fault) => return Err(fault),
    };
    if !is_report(&report) {
        return Err(ReportFault::NotReport);
    }
    if is_text(alloc, &report, bytes)? {
        Ok(report)
    } else {
        Err(ReportFault::NotReport)
    }
}
