// Terms, as a rules file writes them.
ghost use Rattle.std.specs.Prelude.{◌≡◌, codes, option_and_then, IfOk};
ghost use Rattle.toml.specs.Data.{as_array};
ghost use Rattle.toml.specs.View.{items_view, table_view, view};
ghost use Rattle.org_directory.specs.Register.{place_of};
ghost use Rattle.rule_terms.specs.Lists.{and_then, each, made, or_bad};
ghost use Rattle.rule_terms.specs.Parts.{as_formed, as_key, formed_at, number_at, text_at};
ghost use Rattle.rule_terms.specs.Terms.{as_side, at_by, field_words, group_at, groups_of, in_by, is_by, list_in, message_test, on_by, party_test, shape_of, term_by, term_of, terms_at, test_of, values_at, words_at};
ghost use Rattle.rule_terms.specs.declared.form.Form.TheVariants as forms;
ghost use Rattle.rule_terms.specs.declared.term.Term.TheVariants as terms;

use crate::flaw::{Flaw, Read};
use crate::form::Form;
use crate::parts::{count, formed_at, items_of, number_at, text_at, value_at};
use crate::shape::{Shape, has_only, is};
use crate::term::{Side, Term};
use crate::values::{key_values, side_values, text_values};
use mail_names::{Bytes, Items, Key};
use org_directory::{Directory, Kind};
use std::alloc::Global;
use toml::{Table, Value};

/// Whom a term is about.
#[derive(Clone, Copy)]
pub enum Party {
    Sender,
    Recipient,
}

/// What a term tests.
#[derive(Clone, Copy)]
pub enum Test {
    Is(Party),
    InGroup(Party),
    OnSide(Party),
    AtDomain(Party),
    SubjectWords,
    TextWords,
    FieldWords,
    FieldPresent,
    SizeAtLeast,
}

/// The test of a word about sender or recipient.
fn party_test(word: &[u8]) -> Option<Test>
    ensures { result ≡ party_test word.now }
{
    if is(word, b"sender-is") {
        return Some(Test::Is(Party::Sender));
    }
    if is(word, b"recipient-is") {
        return Some(Test::Is(Party::Recipient));
    }
    if is(word, b"sender-in-group") {
        return Some(Test::InGroup(Party::Sender));
    }
    if is(word, b"recipient-in-group") {
        return Some(Test::InGroup(Party::Recipient));
    }
    if is(word, b"sender-scope") {
        return Some(Test::OnSide(Party::Sender));
    }
    if is(word, b"recipient-scope") {
        return Some(Test::OnSide(Party::Recipient));
    }
    if is(word, b"sender-domain") {
        return Some(Test::AtDomain(Party::Sender));
    }
    if is(word, b"recipient-domain") {
        return Some(Test::AtDomain(Party::Recipient));
    }
    None
}

/// The test of a word about the message.
fn message_test(word: &[u8]) -> Option<Test>
    ensures { result ≡ message_test word.now }
{
    if is(word, b"subject-words") {
        return Some(Test::SubjectWords);
    }
    if is(word, b"subject-or-body-words") {
        return Some(Test::TextWords);
    }
    if is(word, b"field-words") {
        return Some(Test::FieldWords);
    }
    if is(word, b"field-present") {
        return Some(Test::FieldPresent);
    }
    if is(word, b"size-at-least") {
        return Some(Test::SizeAtLeast);
    }
    None
}

fn test_of(word: &[u8]) -> Option<Test>
    ensures { result ≡ test_of word.now }
{
    match party_test(word) {
        Some(test) => Some(test),
        None => message_test(word),
    }
}

fn read_test(table: &Table) -> Option<Test>
    ensures { result ≡ option_and_then test_of (text_at (codes "test") (table_view table.now)) }
{
    match text_at(table, "test") {
        Some(word) => test_of(word.as_bytes()),
        None => None,
    }
}

fn shape_of(test: Test) -> Shape
    ensures { result ≡ shape_of test }
{
    match test {
        Test::Is(_)
        | Test::InGroup(_)
        | Test::OnSide(_)
        | Test::AtDomain(_)
        | Test::SubjectWords
        | Test::TextWords => Shape::Values,
        Test::FieldWords => Shape::FieldValues,
        Test::FieldPresent => Shape::Presence,
        Test::SizeAtLeast => Shape::Size,
    }
}

fn is_by(party: Party, keys: Items<Key>) -> Term
    ensures { result ≡ is_by party keys }
{
    match party {
        Party::Sender => Term::SenderIs { keys },
        Party::Recipient => Term::RecipientIs { keys },
    }
}

fn in_by(party: Party, groups: Items<u32>) -> Term
    ensures { result ≡ in_by party groups }
{
    match party {
        Party::Sender => Term::SenderIn { groups },
        Party::Recipient => Term::RecipientIn { groups },
    }
}

fn on_by(party: Party, sides: Items<Side>) -> Term
    ensures { result ≡ on_by party sides }
{
    match party {
        Party::Sender => Term::SenderScope { sides },
        Party::Recipient => Term::RecipientScope { sides },
    }
}

fn at_by(party: Party, domains: Items<Bytes>) -> Term
    ensures { result ≡ at_by party domains }
{
    match party {
        Party::Sender => Term::SenderDomain { domains },
        Party::Recipient => Term::RecipientDomain { domains },
    }
}

fn read_is(alloc: Global, party: Party, table: &Table) -> Read<Term>
    ensures { IfOk result (λ term. term ≡ made (is_by party) (values_at as_key (table_view table.now))) }
{
    match key_values(alloc, table)? {
        Ok(keys) => Ok(Ok(is_by(party, keys))),
        Err(flaw) => Ok(Err(flaw)),
    }
}

/// The place of the group of a key.
fn group_of(directory: &Directory, key: &Key) -> Result<u32, Flaw>
    ensures { result ≡ group_at directory.now (place_of directory.now key.now) }
{
    let Some(place) = directory.find(key) else {
        return Err(Flaw::Unknown);
    };
    if matches!(directory.object(place).kind, Kind::Group) {
        Ok(place)
    } else {
        Err(Flaw::Unknown)
    }
}

fn groups_of(alloc: Global, directory: &Directory, keys: &[Key]) -> Read<Items<u32>>
    ensures { IfOk result (λ groups. groups ≡ groups_of directory.now keys.now) }
{
    let mut groups = Items::new(alloc);
    for key in keys {
        match group_of(directory, key) {
            Ok(place) => groups.push(place)?,
            Err(flaw) => return Ok(Err(flaw)),
        }
    }
    Ok(Ok(groups))
}

fn read_in_group(alloc: Global, party: Party, table: &Table, directory: &Directory) -> Read<Term>
    ensures { IfOk result (λ term. term ≡ made (in_by party) (and_then (values_at as_key (table_view table.now)) (groups_of directory.now))) }
{
    match key_values(alloc, table)? {
        Ok(keys) => match groups_of(alloc, directory, keys.as_slice())? {
            Ok(groups) => Ok(Ok(in_by(party, groups))),
            Err(flaw) => Ok(Err(flaw)),
        },
        Err(flaw) => Ok(Err(flaw)),
    }
}

fn read_on_side(alloc: Global, party: Party, table: &Table) -> Read<Term>
    ensures { IfOk result (λ term. term ≡ made (on_by party) (values_at as_side (table_view table.now))) }
{
    match side_values(alloc, table)? {
        Ok(sides) => Ok(Ok(on_by(party, sides))),
        Err(flaw) => Ok(Err(flaw)),
    }
}

fn read_at_domain(alloc: Global, party: Party, table: &Table) -> Read<Term>
    ensures { IfOk result (λ term. term ≡ made (at_by party) (values_at (as_formed forms.Domain) (table_view table.now))) }
{
    match text_values(alloc, Form::Domain, table)? {
        Ok(domains) => Ok(Ok(at_by(party, domains))),
        Err(flaw) => Ok(Err(flaw)),
    }
}

fn words_at(alloc: Global, table: &Table) -> Read<Items<Bytes>>
    ensures { IfOk result (λ words. words ≡ words_at (table_view table.now)) }
{
    text_values(alloc, Form::Word, table)
}

fn read_subject_words(alloc: Global, table: &Table) -> Read<Term>
    ensures { IfOk result (λ term. term ≡ made (λ words. terms.SubjectWords words) (words_at (table_view table.now))) }
{
    match words_at(alloc, table)? {
        Ok(words) => Ok(Ok(Term::SubjectWords { words })),
        Err(flaw) => Ok(Err(flaw)),
    }
}

fn read_text_words(alloc: Global, table: &Table) -> Read<Term>
    ensures { IfOk result (λ term. term ≡ made (λ words. terms.TextWords words) (words_at (table_view table.now))) }
{
    match words_at(alloc, table)? {
        Ok(words) => Ok(Ok(Term::TextWords { words })),
        Err(flaw) => Ok(Err(flaw)),
    }
}

fn read_field_words(alloc: Global, table: &Table) -> Read<Term>
    ensures { IfOk result (λ term. term ≡ field_words (formed_at forms.Field (codes "field") (table_view table.now)) (words_at (table_view table.now))) }
{
    let Some(field) = formed_at(alloc, Form::Field, table, "field")? else {
        return Ok(Err(Flaw::Bad));
    };
    match words_at(alloc, table)? {
        Ok(words) => Ok(Ok(Term::FieldWords { field, words })),
        Err(flaw) => Ok(Err(flaw)),
    }
}

fn read_field_present(alloc: Global, table: &Table) -> Read<Term>
    ensures { IfOk result (λ term. term ≡ made (λ field. terms.FieldPresent field) (or_bad (formed_at forms.Field (codes "field") (table_view table.now)))) }
{
    match formed_at(alloc, Form::Field, table, "field")? {
        Some(field) => Ok(Ok(Term::FieldPresent { field })),
        None => Ok(Err(Flaw::Bad)),
    }
}

fn read_size(table: &Table) -> Result<Term, Flaw>
    ensures { result ≡ made (λ bytes. terms.SizeAtLeast bytes) (or_bad (number_at (codes "bytes") (table_view table.now))) }
{
    match number_at(table, "bytes") {
        Some(bytes) => Ok(Term::SizeAtLeast { bytes }),
        None => Err(Flaw::Bad),
    }
}

fn read_by(alloc: Global, test: Test, table: &Table, directory: &Directory) -> Read<Term>
    ensures { IfOk result (λ term. term ≡ term_by directory.now (table_view table.now) test) }
{
    match test {
        Test::Is(party) => read_is(alloc, party, table),
        Test::InGroup(party) => read_in_group(alloc, party, table, directory),
        Test::OnSide(party) => read_on_side(alloc, party, table),
        Test::AtDomain(party) => read_at_domain(alloc, party, table),
        Test::SubjectWords => read_subject_words(alloc, table),
        Test::TextWords => read_text_words(alloc, table),
        Test::FieldWords => read_field_words(alloc, table),
        Test::FieldPresent => read_field_present(alloc, table),
        Test::SizeAtLeast => Ok(read_size(table)),
    }
}

/// The term that a value reads to.
#[tactic(auto, unfolding(crate::specs::Terms::term_of))]
fn read_term(alloc: Global, value: &Value, directory: &Directory) -> Read<Term>
    ensures { IfOk result (λ term. term ≡ term_of directory.now (view value.now)) }
{
    let Some(table) = value.as_table() else {
        return Ok(Err(Flaw::Bad));
    };
    let Some(test) = read_test(table) else {
        return Ok(Err(Flaw::Bad));
    };
    if !has_only(table, shape_of(test)) {
        return Ok(Err(Flaw::Bad));
    }
    read_by(alloc, test, table, directory)
}

fn read_each(alloc: Global, values: &[Value], directory: &Directory) -> Read<Items<Term>>
    ensures { IfOk result (λ terms. terms ≡ each (term_of directory.now) (items_view values.now)) }
{
    let mut terms = Items::new(alloc);
    for value in values {
        match read_term(alloc, value, directory)? {
            Ok(term) => terms.push(term)?,
            Err(flaw) => return Ok(Err(flaw)),
        }
    }
    Ok(Ok(terms))
}

fn read_list(alloc: Global, value: &Value, directory: &Directory) -> Read<Items<Term>>
    ensures { IfOk result (λ terms. terms ≡ list_in directory.now (as_array (view value.now))) }
{
    let Some(values) = items_of(value) else {
        return Ok(Err(Flaw::Bad));
    };
    if count(values) > 16 {
        return Ok(Err(Flaw::Bad));
    }
    read_each(alloc, values, directory)
}

/// The terms of a list, which may be missing, or the flaw of the first that has one.
#[tactic(auto, unfolding(crate::specs::Terms::terms_at))]
pub fn terms_at(alloc: Global, table: &Table, key: &str, directory: &Directory) -> Read<Items<Term>>
    ensures { IfOk result (λ terms. terms ≡ terms_at directory.now key.now (table_view table.now)) }
{
    match value_at(table, key) {
        None => Ok(Ok(Items::new(alloc))),
        Some(value) => read_list(alloc, value, directory),
    }
}
