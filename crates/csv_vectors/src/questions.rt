// A line's question and its answer.
use bar_lines::BarText;
use lines::{Output, Unanswered, Words, whole};
use std::alloc::Global;
use std::io::Write;
use std::str;

// A record's place and its text in digits.
fn question<'a>(words: &mut Words<'a>) -> Option<(usize, &'a str)> {
    let name = words.next()?;
    let place = usize::try_from(whole::<i64>(words.next()?)?).ok()?;
    let digits = words.next()?;
    (name == "csv" && words.next().is_none()).then_some((place, digits))
}

// The bytes of these digits, two a byte; none of `empty`.
fn bytes_of(alloc: Global, digits: &str) -> Result<Vec<u8>, Unanswered> {
    if digits == "empty" {
        return Ok(Vec::new(alloc));
    }
    if digits.is_empty() || digits.bytes().any(|b| b.is_ascii_uppercase()) {
        return Err(Unanswered::BadLine);
    }
    let mut bytes = vec![in alloc; 0u8; digits.len() / 2]?;
    hex::decode_to_slice(digits, &mut bytes).map_err(|_| Unanswered::BadLine)?;
    Ok(bytes)
}

// Writes the answer to a line.
pub fn answer(out: &mut Output, alloc: Global, line: &[u8]) -> Result<(), Unanswered> {
    let mut words = str::from_utf8(line)?.split(' ');
    let (place, digits) = question(&mut words).ok_or(Unanswered::BadLine)?;
    let text = bytes_of(alloc, digits)?;
    match csv_text::read_record(&text, place) {
        Ok((bar, length)) => writeln!(out, "ok {length} {}", BarText(bar))?,
        Err(question) => writeln!(out, "no {}", question.number())?,
    }
    Ok(())
}
