// Numbers as they are written, at the beginning of a text. What is read comes with the text behind it.
ghost use Rattle.std.specs.Prelude.{◌≡◌, true, false, MatchOption};
ghost use Rattle.csv_text.specs.Written.{Number, Field};
ghost use Rattle.csv_text.specs.Reading.{begins, behind, digits_at, behind_digits, whole_read, number_at, field_at, next_at, time_at};
ghost use Rattle.csv_text.specs.Code.Numerals.{with_digit, Reads, PointRead};

// A number: whether it has a minus, its digits as a whole number, and how many of them stand behind the point. The whole number
// stops at 10^15, which has a digit too many.
// Kept: `minus` is a yes or no, as std tells a sign (is_sign_negative): with an enum of two signs each reader would compare what it now asks.
#[derive(Clone, Copy)]
pub struct Numeral {
    pub minus: bool,
    pub digits: u64,
    pub places: usize,
}

// The text behind its first byte, where that is b.
pub fn behind(text: &[u8], b: u8) -> Option<&[u8]>
    ensures { MatchOption result (begins b text.now ≡ false) (λ rest. (begins b text.now ≡ true) × (rest.now ≡ behind text.now)) }
{
    text.strip_prefix(&[b])
}

// A digit more behind those that make n.
fn with_digit(n: u64, b: u8) -> u64
    ensures { result ≡ with_digit n b }
{
    n.saturating_mul(10)
        .saturating_add(u64::from(b.saturating_sub(b'0')))
        .min(1000000000000000)
}

// The digits at the text's beginning, and the text behind them.
fn split_digits(text: &[u8]) -> (&[u8], &[u8])
    ensures { (result.0.now ≡ digits_at text.now) × (result.1.now ≡ behind_digits text.now) }
{
    let n = text
        .iter()
        .position(|b| !b.is_ascii_digit())
        .unwrap_or(text.len());
    text.split_at(n)
}

// The number without a sign whose digits before the point make n, and end where the text begins.
fn number_behind(text: &[u8], n: u64) -> Option<(Numeral, &[u8])>
    ensures { PointRead text.now false n result }
{
    let Some(text) = behind(text, b'.') else {
        let whole = Numeral {
            minus: false,
            digits: n,
            places: 0,
        };
        return Some((whole, text));
    };
    let (digits, rest) = split_digits(text);
    let places = digits.len();
    if places == 0 || 22 < places {
        return None;
    }
    let number = Numeral {
        minus: false,
        digits: digits.iter().fold(n, |n, b| with_digit(n, *b)),
        places,
    };
    Some((number, rest))
}

// The number whose digits begin the text, without a sign.
fn unsigned_at(text: &[u8]) -> Option<(Numeral, &[u8])>
    ensures { Reads (λ (n : Number). n) (whole_read false (digits_at text.now) (behind_digits text.now)) result }
{
    let (digits, rest) = split_digits(text);
    if digits.is_empty() {
        return None;
    }
    let n = digits.iter().fold(0, |n, b| with_digit(n, *b));
    number_behind(rest, n)
}

fn number_at(text: &[u8]) -> Option<(Numeral, &[u8])>
    ensures { Reads (λ (n : Number). n) (number_at text.now) result }
{
    let Some(unsigned) = behind(text, b'-') else {
        return unsigned_at(text);
    };
    let (number, rest) = unsigned_at(unsigned)?;
    let negative = Numeral {
        minus: true,
        ..number
    };
    Some((negative, rest))
}

// A number, in quotes or without.
fn field_at(text: &[u8]) -> Option<(Numeral, &[u8])>
    ensures { Reads (λ (f : Field). f.number) (field_at text.now) result }
{
    let Some(quoted) = behind(text, b'"') else {
        return number_at(text);
    };
    let (n, rest) = number_at(quoted)?;
    let rest = behind(rest, b'"')?;
    Some((n, rest))
}

// A field with a comma before it.
pub fn next_at(text: &[u8]) -> Option<(Numeral, &[u8])>
    ensures { Reads (λ (f : Field). f.number) (next_at text.now) result }
{
    field_at(behind(text, b',')?)
}

// The first field: times are whole seconds, so it has no point.
// Kept: an if. `filter` would be handed the pair by reference and take it apart again for the number, which has a name here.
pub fn time_at(text: &[u8]) -> Option<(Numeral, &[u8])>
    ensures { Reads (λ (f : Field). f.number) (time_at text.now) result }
{
    let (n, rest) = field_at(text)?;
    if n.places == 0 { Some((n, rest)) } else { None }
}
