// A line's question and its answer.
ghost use Rattle.std.specs.Prelude.{◌≤◌, length, IfOk, vec_len};

use crate::items::Fields;
use lines::{Output, Spaced, Unanswered, words_behind};
use machine::Direction;
use std::alloc::Global;
use std::fmt;
use std::io::{self, Write};
use zones::{Building, FakeStroke, Summary, fake_count, fake_stroke, goes, zones_of_run};

// A zone as it is written: `SDT EDT SDIR EDIR ZG ZD ZZ GG DD VALID N`.
#[derive(Clone, Copy)]
struct ZoneText(Building);

impl fmt::Display for ZoneText {
    fn fmt<W: fmt::Write>(&self, f: &mut fmt::Formatter<W>) -> fmt::Result {
        let zone = self.0.zone;
        let (first, last) = (zone.first, zone.last);
        write!(f, "{} {}", first.began, last.ended)?;
        write!(f, " {} {}", first.direction, last.direction)?;
        let edges = [zone.zg, zone.zd, zone.zz(), zone.gg, zone.dd];
        write!(
            f,
            "{} {} {}",
            Spaced(&edges),
            u8::from(zone.is_valid()),
            self.0.size
        )
    }
}

// A fake stroke as it is written: `up|down SDT EDT HIGH LOW POWER`.
#[derive(Clone, Copy)]
struct FakeText(FakeStroke);

impl fmt::Display for FakeText {
    fn fmt<W: fmt::Write>(&self, f: &mut fmt::Formatter<W>) -> fmt::Result {
        let fake = self.0;
        let floats = [fake.high, fake.low, fake.power];
        write!(
            f,
            "{} {} {}{}",
            fake.direction,
            fake.sdt,
            fake.edt,
            Spaced(&floats)
        )
    }
}

// The most strokes of a line.
const MOST: usize = 64;

// The strokes behind a line's name.
// Kept: beside prices_of of bars_vectors, which counts its words first: here fields are read until no byte is left.
fn strokes_of(alloc: Global, mut fields: Fields<'_>) -> Result<Vec<Summary>, Unanswered>
    ensures { IfOk result (λ strokes. vec_len strokes ≤ 64) }
{
    let mut strokes = Vec::new(alloc);
    for _ in 0..MOST {
        if fields.is_empty() {
            break;
        }
        strokes.push(fields.stroke().ok_or(Unanswered::BadLine)?)?;
    }
    if fields.is_empty() {
        Ok(strokes)
    } else {
        Err(Unanswered::BadLine)
    }
}

// The zones of a run, of the zone that each of its strokes is in.
fn zones_of(out: &mut Output, strokes: &[Summary]) -> io::Result<()>
    requires { length strokes.now ≤ 64 }
{
    let count = strokes.len();
    let built = zones_of_run(strokes);
    for pair in built[..count].windows(2) {
        // The next stroke has opened another.
        if pair[0].done < pair[1].done {
            write!(out, "{} | ", ZoneText(pair[0]))?;
        }
    }
    match built[..count].last() {
        None => writeln!(out, "empty"),
        Some(zone) => writeln!(out, "{}", ZoneText(*zone)),
    }
}

// is_bis_up and is_bis_down of a run.
fn bis_of(out: &mut Output, strokes: &[Summary]) -> io::Result<()> {
    let [up, down] = [Direction::Up, Direction::Down].map(|way| u8::from(goes(way, strokes)));
    writeln!(out, "{up} {down}")
}

// The fake strokes of the fractals behind a line's name, each of four words.
fn fakes_of(out: &mut Output, mut fields: Fields<'_>) -> Result<(), Unanswered> {
    let count = fake_count(words_behind(fields.0) / 4);
    if count == 0 {
        writeln!(out, "empty")?;
        return Ok(());
    }
    let (mut mark, mut last) = fields.fractal().ok_or(Unanswered::BadLine)?;
    for i in 0..count {
        let (next_mark, next) = fields.fractal().ok_or(Unanswered::BadLine)?;
        if 0 < i {
            write!(out, " | ")?;
        }
        write!(out, "{}", FakeText(fake_stroke(2, mark, last, next)))?;
        (mark, last) = (next_mark, next);
    }
    writeln!(out)?;
    Ok(())
}

// Writes the answer to a line.
pub fn answer(out: &mut Output, alloc: Global, line: &[u8]) -> Result<(), Unanswered> {
    let end = line.iter().position(|b| *b == b' ').unwrap_or(line.len());
    let (name, rest) = line.split_at(end);
    let fields = Fields(rest);
    match name {
        b"zones" => zones_of(out, &strokes_of(alloc, fields)?)?,
        b"bis" => bis_of(out, &strokes_of(alloc, fields)?)?,
        b"fake" => fakes_of(out, fields)?,
        _ => return Err(Unanswered::BadLine),
    }
    Ok(())
}
