// The kinds of tables in a rules file, and the keys of each.
ghost use Rattle.std.specs.Prelude.{◌≡◌, string_bytes};
ghost use Rattle.std.specs.BTreeMap.{keys};
ghost use Rattle.std.specs.List.{list_all};
ghost use Rattle.std.specs.Str.{bytes_eq};
ghost use Rattle.org_directory.specs.Register.{among};
ghost use Rattle.toml.specs.View.{table_view};
ghost use Rattle.rule_terms.specs.Parts.{has_only, keys_of};
ghost use Rattle.rule_terms.specs.declared.shape.Shape.TheVariants as shapes;

use toml::Table;

/// A kind of table.
#[derive(Clone, Copy)]
pub enum Shape {
    Top,
    Rule,
    Journal,
    /// A term with values alone.
    Values,
    /// A term with a field and values.
    FieldValues,
    /// A term with a field alone.
    Presence,
    /// A term with a number of bytes.
    Size,
    /// An action with a text alone.
    Text,
    /// An action with a field and a text.
    FieldText,
    /// An action with a field alone.
    Removal,
    /// An action with a key.
    Target,
    Disclaimer,
    Rejection,
    Approval,
}

/// Whether these are the same bytes.
pub fn is(a: &[u8], b: &[u8]) -> bool
    ensures { result ≡ bytes_eq a.now b.now }
{
    a == b
}

fn is_key_of_rule(key: &[u8]) -> bool
    ensures { result ≡ among key.now (keys_of shapes.Rule) }
{
    is(key, b"name")
        || is(key, b"enabled")
        || is(key, b"from")
        || is(key, b"until")
        || is(key, b"stop")
        || is(key, b"when")
        || is(key, b"unless")
        || is(key, b"do")
}

fn is_key_of(shape: Shape, key: &[u8]) -> bool
    ensures { result ≡ among key.now (keys_of shape) }
{
    match shape {
        Shape::Top => is(key, b"rule") || is(key, b"journal"),
        Shape::Rule => is_key_of_rule(key),
        Shape::Journal => {
            is(key, b"name") || is(key, b"scope") || is(key, b"recipient") || is(key, b"mailbox")
        }
        Shape::Values => is(key, b"test") || is(key, b"values"),
        Shape::FieldValues => is(key, b"test") || is(key, b"field") || is(key, b"values"),
        Shape::Presence => is(key, b"test") || is(key, b"field"),
        Shape::Size => is(key, b"test") || is(key, b"bytes"),
        Shape::Text => is(key, b"act") || is(key, b"text"),
        Shape::FieldText => is(key, b"act") || is(key, b"field") || is(key, b"text"),
        Shape::Removal => is(key, b"act") || is(key, b"field"),
        Shape::Target => is(key, b"act") || is(key, b"to"),
        Shape::Disclaimer => {
            is(key, b"act") || is(key, b"place") || is(key, b"text") || is(key, b"fallback")
        }
        Shape::Rejection => is(key, b"act") || is(key, b"code") || is(key, b"text"),
        Shape::Approval => is(key, b"act") || is(key, b"by"),
    }
}

fn are_keys_of(table: &Table, shape: Shape) -> bool
    ensures { result ≡ list_all (λ k. among (string_bytes k) (keys_of shape)) (keys table.now) }
{
    table.keys().all(|key| is_key_of(shape, key.as_bytes()))
}

/// Whether the table has no keys but those of its kind.
pub fn has_only(table: &Table, shape: Shape) -> bool
    ensures { result ≡ has_only (keys_of shape) (table_view table.now) }
{
    are_keys_of(table, shape)
}
