// The first record of a text, as fields and as a bar.
ghost use Rattle.std.specs.Prelude.{◌≡◌};
ghost use Rattle.csv_text.specs.Reading.{record_at, end_at};
ghost use Rattle.csv_text.specs.Records.{read_text, read_record, import_of};
ghost use Rattle.csv_text.specs.Claims.{ReadsBack, OneDivision};
ghost use Rattle.csv_text.specs.Code.Fields.{ReadsRecord, ReadsEnd, few_digits_in, bar_in, FieldsFit};

use crate::numerals::{Numeral, behind, next_at, time_at};
use crate::values::{seconds_of, value_of};
use bars::{Bar, Question};

// The fields of a record.
#[derive(Clone, Copy)]
struct Fields {
    time: Numeral,
    open: Numeral,
    close: Numeral,
    high: Numeral,
    low: Numeral,
    vol: Numeral,
    amount: Numeral,
}

// The text behind a record's end, which is CRLF or the text's end.
fn end_at(text: &[u8]) -> Option<&[u8]>
    ensures { ReadsEnd text.now (end_at text.now) result }
{
    if text.is_empty() {
        return Some(text);
    }
    behind(behind(text, b'\r')?, b'\n')
}

// A record's fields, and its length in bytes, quotes and CRLF included.
fn fields_at(text: &[u8]) -> Option<(Fields, usize)>
    ensures { ReadsRecord (record_at text.now) result }
{
    // Kept: the text behind each field by name, since the contracts speak of it: a reader that holds it would have to tell it before and after each field.
    let (time, rest) = time_at(text)?;
    let (open, rest) = next_at(rest)?;
    let (close, rest) = next_at(rest)?;
    let (high, rest) = next_at(rest)?;
    let (low, rest) = next_at(rest)?;
    let (vol, rest) = next_at(rest)?;
    let (amount, rest) = next_at(rest)?;
    let rest = end_at(rest)?;
    let fields = Fields {
        time,
        open,
        close,
        high,
        low,
        vol,
        amount,
    };
    Some((fields, text.len() - rest.len()))
}

// Question 19, of every field: fewer than 16 digits without the leading zeros, so that the whole number they make is below 10^15.
fn few_digits(f: Fields) -> bool
    ensures { result ≡ few_digits_in f }
{
    [f.time, f.open, f.close, f.high, f.low, f.vol, f.amount]
        .iter()
        .all(|n| n.digits < 1000000000000000)
}

// The bar of a record at a place that fits 32 bits.
fn bar_of(f: Fields, id: i32) -> Bar
    requires { FieldsFit f }
    ensures { result ≡ bar_in id f }
{
    Bar {
        time: seconds_of(f.time),
        id,
        open: value_of(f.open),
        close: value_of(f.close),
        high: value_of(f.high),
        low: value_of(f.low),
        vol: value_of(f.vol),
        amount: value_of(f.amount),
    }
}

// The bar of the text's first record, by questions 18 and 19 alone, and the record's length: for callers that ask 5 to 8 themselves.
pub fn bar_of_text(text: &[u8], place: usize) -> Result<(Bar, usize), Question>
    ensures { (import_of result ≡ read_text place text.now) × ReadsBack × OneDivision }
{
    // Kept: two let-elses. Tried, for a few minutes: `?` behind `map_err` and behind `ok_or`. What was read is then told of ok_or's value, and the refusal of
    // a closure's, and the five answers that take both from a let-else did not close.
    let Ok(id) = i32::try_from(place) else {
        return Err(Question::Record);
    };
    let Some((fields, length)) = fields_at(text) else {
        return Err(Question::Record);
    };
    if !few_digits(fields) {
        return Err(Question::Digits);
    }
    Ok((bar_of(fields, id), length))
}

// The bar of the text's first record, which stands at this place of a list of records, from 0, and the record's length in bytes,
// quotes and CRLF included: questions 18, 19, then 5 to 8. What follows the record is not looked at.
pub fn read_record(text: &[u8], place: usize) -> Result<(Bar, usize), Question>
    ensures { (import_of result ≡ read_record place text.now) × ReadsBack × OneDivision }
{
    let (bar, length) = bar_of_text(text, place)?;
    bars::question_of_bar(bar)?;
    Ok((bar, length))
}
