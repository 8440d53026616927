// Decimal numbers in names: no leading zeros, and no more than their types hold.
ghost use Rattle.std.specs.Prelude.{◌≡◌, ◌≢◌, ◌≤◌, ◌<◌, ◌^◌, ℕ, List, true, decimal, length, IfSome, IfNone};
ghost use Rattle.std.specs.List.{prefix_len};
ghost use Rattle.std.specs.Char.{is_ascii_digit};
ghost use Rattle.std.specs.Option.{SomeIff};
ghost use Rattle.std.specs.Str.{all_ascii_digits};
ghost use Rattle.std.specs.Str.Parse.{digits_value};
ghost use Rattle.mail_names.specs.Names.{is_short, BeginsWithNumber, BeginsWithDashAndNumber, BeginsWithNumbers};

/// The three numbers of a name, and what stands behind them.
pub struct Numbers<'a> {
    pub submission: u64,
    pub release: u32,
    pub place: u32,
    pub rest: &'a [u8],
}

// How many digits stand at the front.
fn digit_count(text: &[u8]) -> usize
    ensures value { result ≡ prefix_len is_ascii_digit text.now }
    ensures within { result ≤ length text.now }
{
    for (i, b) in text.iter().enumerate() {
        if !b.is_ascii_digit() {
            return i;
        }
    }
    text.len()
}

// The value of these digits.
fn value_of(digits: &[u8]) -> Option<u64>
    requires { all_ascii_digits digits.now ≡ true }
    ensures { SomeIff result (digits_value 10 digits.now < 2 ^ 64) (digits_value 10 digits.now) }
{
    let mut value = 0u64;
    for digit in digits {
        value = value
            .checked_mul(10)?
            .checked_add(u64::from(*digit - b'0'))?;
    }
    Some(value)
}

// Whether these digits have no leading zero.
fn is_short(digits: &[u8]) -> bool
    ensures { result ≡ is_short digits.now }
{
    match digits {
        [] => false,
        [_] => true,
        [first, ..] => *first != b'0',
    }
}

// The number that these digits write without leading zeros.
fn number_of(digits: &[u8]) -> Option<u64>
    requires { all_ascii_digits digits.now ≡ true }
    ensures fits { IfSome result (λ n. n < 2 ^ 64) }
    ensures some { IfSome result (λ n. decimal n ≡ digits.now) }
    ensures none { IfNone result ((n : ℕ) → n < 2 ^ 64 → decimal n ≢ digits.now) }
{
    if !is_short(digits) {
        return None;
    }
    value_of(digits)
}

fn first_number(text: &[u8]) -> Option<(u64, &[u8])>
    ensures some { IfSome result (λ p. BeginsWithNumber text.now p.0 p.1.now) }
    ensures none { IfNone result ((n : ℕ) (rest : List ℕ) → ¬ (BeginsWithNumber text.now n rest)) }
{
    let count = digit_count(text);
    let number = number_of(&text[..count])?;
    Some((number, &text[count..]))
}

fn dash_and_number(text: &[u8]) -> Option<(u32, &[u8])>
    ensures some { IfSome result (λ p. BeginsWithDashAndNumber text.now p.0 p.1.now) }
    ensures none { IfNone result ((n : ℕ) (rest : List ℕ) → ¬ (BeginsWithDashAndNumber text.now n rest)) }
{
    match text {
        [b'-', digits @ ..] => {
            let (number, rest) = first_number(digits)?;
            match u32::try_from(number) {
                Ok(number) => Some((number, rest)),
                Err(_) => None,
            }
        }
        _ => None,
    }
}

/// The three numbers at the front of this text.
pub fn read_numbers(text: &[u8]) -> Option<Numbers<'_>>
    ensures some { IfSome result (λ n. BeginsWithNumbers text.now n.submission n.release n.place n.rest.now) }
    ensures none { IfNone result ((s r p : ℕ) (rest : List ℕ) → ¬ (BeginsWithNumbers text.now s r p rest)) }
{
    let (submission, rest) = first_number(text)?;
    let (release, rest) = dash_and_number(rest)?;
    let (place, rest) = dash_and_number(rest)?;
    Some(Numbers {
        submission,
        release,
        place,
        rest,
    })
}
