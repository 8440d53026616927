// The check of an organisation's text.
ghost use Rattle.std.specs.Prelude.{◌≡◌, ◌≢◌, List, ℕ, codes, IfOk, Result};
ghost use Rattle.std.specs.Io.KnownBytes.{Consumes};
ghost use Rattle.port_io.specs.Causes.{Rose};
ghost use Rattle.org_directory.specs.Register.{Register};
ghost use Rattle.org_directory.specs.Reading.{Gives};
ghost use Rattle.org_directory.specs.declared.fault.DirectoryFault.{DirectoryFault};
ghost use Rattle.rule_terms.specs.Forms.{Book};
ghost use Rattle.rule_terms.specs.Reading.{Gives as ReadsAs};
ghost use Rattle.rule_terms.specs.declared.fault.RuleFault.{RuleFault};
ghost use Rattle.org_check.specs.Check.{Checks, Is, Prints, fault_line, directory_fault, rules_fault, by_rules, judged, verdict_of};

use crate::read::{ReadEnd, read_whole};
use crate::split::parts;
use mail_names::{Bytes, NoMemory};
use org_directory::{Directory, DirectoryFault};
use port_io::{Failed, Sink, Source, write_all_to};
use rule_terms::{RuleBook, RuleFault, read_rules};
use std::alloc::Global;

/// How a check ended.
#[derive(Clone, Copy, Debug, PartialEq, Eq)]
pub enum CheckEnd {
    /// The text is an organisation's, and `ok` was printed.
    Passed,
    /// It is none, and the first fault was printed.
    Refused,
    NoMemory,
    /// The source failed, and its count of faults rose.
    SourceFault,
    /// The sink failed, and its count of faults rose.
    SinkFault,
    /// 33,554,432 octets were taken without an end.
    TooLong,
}

// What is printed of a text, and whether it is an organisation's.
#[derive(Drop)]
struct Verdict {
    line: Bytes,
    passes: bool,
}

fn fault_line(alloc: Global, words: &str, number: u32, place: usize) -> Result<Bytes, NoMemory>
    ensures { IfOk result (λ line. line ≡ fault_line words.now number place) }
{
    let line = format!(in alloc; "{words}{number} at {place}\n")?;
    Bytes::of(alloc, line.as_bytes())
}

fn directory_line(alloc: Global, number: u32, row: usize) -> Result<Bytes, NoMemory>
    ensures { IfOk result (λ line. line ≡ fault_line (codes "directory fault ") number row) }
{
    fault_line(alloc, "directory fault ", number, row)
}

fn rules_line(alloc: Global, number: u32, rule: u32) -> Result<Bytes, NoMemory>
    ensures { IfOk result (λ line. line ≡ fault_line (codes "rules fault ") number rule) }
{
    fault_line(alloc, "rules fault ", number, rule as usize)
}

fn directory_fault(alloc: Global, fault: DirectoryFault) -> Result<Bytes, NoMemory>
    ensures value { IfOk result (λ line. line ≡ directory_fault fault) }
    ensures told { IfOk result (λ line. fault ≢ DirectoryFault.NoMemory) }
{
    match fault {
        DirectoryFault::BadRow { row } => directory_line(alloc, 1, row),
        DirectoryFault::DoubleKey { row } => directory_line(alloc, 2, row),
        DirectoryFault::UnknownMember { row } => directory_line(alloc, 3, row),
        DirectoryFault::NoModerators { row } => directory_line(alloc, 4, row),
        DirectoryFault::TooMany { row } => directory_line(alloc, 5, row),
        DirectoryFault::NoMemory => Err(NoMemory),
    }
}

fn rules_fault(alloc: Global, fault: RuleFault) -> Result<Bytes, NoMemory>
    ensures value { IfOk result (λ line. line ≡ rules_fault fault) }
    ensures told { IfOk result (λ line. fault ≢ RuleFault.NoMemory) }
{
    match fault {
        RuleFault::NotToml => rules_line(alloc, 1, 0),
        RuleFault::BadTerm { rule } => rules_line(alloc, 2, rule),
        RuleFault::BadAction { rule } => rules_line(alloc, 3, rule),
        RuleFault::UnknownKey { rule } => rules_line(alloc, 4, rule),
        RuleFault::BadCode { rule } => rules_line(alloc, 5, rule),
        RuleFault::BadDate { rule } => rules_line(alloc, 6, rule),
        RuleFault::TooMany => rules_line(alloc, 7, 0),
        RuleFault::NoMemory => Err(NoMemory),
    }
}

// The verdict on rules that read so.
fn by_rules(alloc: Global, read: Result<RuleBook, RuleFault>) -> Result<Verdict, NoMemory>
    ensures { (given : Result Book RuleFault) → ReadsAs read given → IfOk result (λ verdict. Is verdict.line verdict.passes (by_rules given)) }
{
    match read {
        Err(fault) => Ok(Verdict {
            line: rules_fault(alloc, fault)?,
            passes: false,
        }),
        Ok(_) => Ok(Verdict {
            line: Bytes::of(alloc, b"ok\n")?,
            passes: true,
        }),
    }
}

// The verdict on a directory that reads so, with the rules that stand behind it.
fn judged(
    alloc: Global,
    read: Result<Directory, DirectoryFault>,
    rules: &[u8],
) -> Result<Verdict, NoMemory>
    ensures { (given : Result Register DirectoryFault) → Gives read given → IfOk result (λ verdict. Is verdict.line verdict.passes (judged given rules.now)) }
{
    match read {
        Err(fault) => Ok(Verdict {
            line: directory_fault(alloc, fault)?,
            passes: false,
        }),
        Ok(directory) => by_rules(alloc, read_rules(alloc, rules, &directory)),
    }
}

fn verdict_of(alloc: Global, text: &[u8]) -> Result<Verdict, NoMemory>
    ensures { IfOk result (λ verdict. Is verdict.line verdict.passes (verdict_of text.now)) }
{
    let (directory, rules) = parts(text);
    judged(alloc, Directory::read_csv(alloc, directory), rules)
}

// Prints a verdict's line.
fn print<K: Sink>(sink: &mut K, verdict: &Verdict) -> CheckEnd
    ensures printed { Prints verdict.now.line verdict.now.passes (K.taken sink.old) (K.taken sink.new) result }
    ensures sink { result ≡ CheckEnd.SinkFault → Rose (K.faults sink.old) (K.faults sink.new) }
    ensures source { result ≡ CheckEnd.SourceFault → ⊥ }
{
    match write_all_to(sink, verdict.line.as_slice()) {
        Ok(()) if verdict.passes => CheckEnd::Passed,
        Ok(()) => CheckEnd::Refused,
        Err(Failed) => CheckEnd::SinkFault,
    }
}

/// Reads an organisation's text to its end, and prints `ok` or its first fault. The text is that of the directory, and
/// behind the first line `%%` that of the rules; without that line there are none.
pub fn check<S: Source, K: Sink>(alloc: Global, source: &mut S, sink: &mut K) -> CheckEnd
    ensures checks { (text : List ℕ) × Consumes (S.left source.old) (S.left source.new) text
        × Checks text (S.left source.new) (K.taken sink.old) (K.taken sink.new) result }

    // A fault of an end is answered only where its count rose.
    ensures source { result ≡ CheckEnd.SourceFault → Rose (S.faults source.old) (S.faults source.new) }
    ensures sink { result ≡ CheckEnd.SinkFault → Rose (K.faults sink.old) (K.faults sink.new) }
{
    let text = match read_whole(alloc, source) {
        Ok(text) => text,
        Err(ReadEnd::Failed) => return CheckEnd::SourceFault,
        Err(ReadEnd::NoMemory) => return CheckEnd::NoMemory,
        Err(ReadEnd::TooLong) => return CheckEnd::TooLong,
    };
    match verdict_of(alloc, text.as_slice()) {
        Ok(verdict) => print(sink, &verdict),
        Err(NoMemory) => CheckEnd::NoMemory,
    }
}
