//! Asks an organisation's crates what stands in `stdin`, a row a line, and prints each row with its answer.
//!
//! To add a row, put it into `stdin`, and the same line with ` -> ` and the answer that is wanted at its place in
//! `stdout`. The answer comes from docs/organisation.md and the crates' docs, and not from a run. Behind the first
//! column stand the words of a row; `TEXT` and `KEYS` are the rest of the line.
//!
//! | Row | Asks for |
//! |---|---|
//! | `# TEXT`, an empty line | nothing; it is printed as it is |
//! | `directory`, then lines of CSV without the header, then `end` | the verdict; further rows ask of this directory, if it is one |
//! | `forwards`, then such lines with a forward and whether the mailbox keeps, then `end` | the same of a directory with forwards |
//! | `rules`, then lines of TOML, then `end` | the verdict; further rows ask of this rule book, if it is one |
//! | `mail TEXT` | nothing: further rows ask of this message |
//! | `header TEXT` | the verdict on a directory whose header is TEXT too |
//! | `records TEXT` | the verdict on a directory of these records behind the header |
//! | `forward-records TEXT` | the same behind the header of a directory with forwards |
//! | `file TEXT` | the verdict on a rules file |
//! | `rule KEYS` | the verdict on a rule that has a name and these keys |
//! | `check TEXT` | what a check prints of the header and TEXT, and how it ends |
//! | `check-forwards TEXT` | the same of the header of a directory with forwards and TEXT |
//! | `check-whole TEXT` | the same of TEXT alone |
//! | `size` | the number of objects |
//! | `find KEY` | its object's place, its side, and whether mail can be delivered to it |
//! | `members GROUP` | the places of its members, or of a mailbox's forward |
//! | `in-group GROUP KEY` | whether the key is in the group |
//! | `needs-approval OBJECT SENDER` | whether the object needs approval |
//! | `expand SENDER OPENED ROOTS` | the expansion: leaves, closed objects behind `!`, unknown roots behind `?`, each with its route, from the root down, a group behind `<` and a mailbox that forwards behind `<<` |
//! | `walk SENDER OPENED ROOTS` | the same where listing all paths takes too long |
//! | `depths SENDER OPENED ROOTS` | how many steps each leaf's route has |
//! | `word WORD TEXT` | whether the word stands in the text |
//! | `holds SENDER RECIPIENT TERM` | whether the term holds |
//! | `applies SENDER RECIPIENT MOMENT KEYS` | whether a rule with these keys applies |
//! | `book` | what the rule book has, a line a part |
//! | `run SENDER OPENED RECIPIENTS` | the fates under the rule book, the copies, and a line for each text, or its length where it has more than 4,096 octets |
//! | `run-alone SENDER OPENED RECIPIENTS` | the same, where each recipient is judged alone |
//! | `forks SENDER OPENED RECIPIENTS` | a line for each fork: its edits, each as RULE.ACTION, the places of its leaves, and the text after the edits |
//! | `texts WORDS` | the place of each word, and how many texts there are |
//! | `takes SENDER TARGET` | a letter for each journal rule: whether it takes the mail |
//! | `journaled SENDER TARGETS` | each mailbox with the places of what it takes |
//!
//! Keys in a list have commas between them, and `-` is the null sender or an empty list; OPENED has keys of objects
//! and places of rules. In a TEXT, in KEYS and in the lines of a block `\n`, `\r` and `\xNN` are octets. The line
//! `repeat N TEXT` in a block stands for N such texts without a line's end, with their number, from 0, for `\#` and
//! the next one for `\+`.
#![tactic(auto)]

mod alone_rows;
mod asked;
mod blocks;
mod book_rows;
mod desk;
mod directory_rows;
mod escapes;
mod fork_rows;
mod group_rows;
mod journal_rows;
mod reading_rows;
mod rows;
mod rule_rows;
mod run_rows;
mod wrong;

use desk::Desk;
use std::io;

fn main(rt: HostRuntime) -> io::Result<()> {
    let mut desk = Desk::new(rt.alloc());
    for line in rt.lines(rt.alloc()) {
        let line = line?;
        match rows::answer(rt.alloc(), &mut desk, line.as_str()) {
            Ok(text) => rt.print(text.as_str())?,
            Err(_) => rt.print("no memory\n")?,
        }
    }
    Ok(())
}
