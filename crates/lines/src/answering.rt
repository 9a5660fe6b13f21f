// A program that answers each line of its input.
ghost use Rattle.std.specs.Prelude.{◌≡◌, ◌≢◌, ◌<◌, ◌≤◌, ◌↔◌, ◌==◌, Err, IfOk, IsTrue, filter, length, slice_get};

use crate::reading::{buffered_input, read_line};
use crate::writing::{Output, buffered_output, flush_before_reading};
use std::alloc::{AllocError, AllocFailed};
use std::io::{self, Write};
use std::str::{self, Utf8Error};

// Why a line has no answer of its own: it is no question, it is too long, or memory or the output failed.
#[derive(Debug, Drop)]
pub enum Unanswered {
    BadLine,
    TooLong,
    Failed(io::Error),
}

impl From<AllocError> for Unanswered {
    fn from(e: AllocError) -> Unanswered {
        Unanswered::Failed(io::Error::from(e))
    }
}

impl<T: Drop> From<AllocFailed<T>> for Unanswered {
    fn from(e: AllocFailed<T>) -> Unanswered {
        Unanswered::from(AllocError::from(e))
    }
}

impl From<io::Error> for Unanswered {
    fn from(e: io::Error) -> Unanswered {
        Unanswered::Failed(e)
    }
}

// A line that is to be text and is none is no question.
impl From<Utf8Error> for Unanswered {
    fn from(_e: Utf8Error) -> Unanswered {
        Unanswered::BadLine
    }
}

impl Unanswered {
    // Says so in place of the answer to the line with this number.
    pub fn say(self, out: &mut Output, number: u64) -> io::Result<()>
        ensures failed { (e : _) → self ≡ Unanswered.Failed e → result ≡ Err e }
    {
        match self {
            Unanswered::BadLine => writeln!(out, "bad line {number}"),
            Unanswered::TooLong => writeln!(out, "too long"),
            Unanswered::Failed(e) => Err(e),
        }
    }
}

// A line of at most so many bytes, as text.
pub fn text(line: &[u8], most: usize) -> Result<&str, Unanswered>
    ensures same { IfOk result (λ text. text.now ≡ line.now) }
    ensures short { IfOk result (λ text. length text.now ≤ most) }
{
    if most < line.len() {
        return Err(Unanswered::TooLong);
    }
    Ok(str::from_utf8(line)?)
}

// How many words stand behind the first.
pub fn words_behind(line: &[u8]) -> usize
    ensures { result ≡ length (filter (λ b. b == 32) line.now) }
{
    line.iter().filter(|b| **b == b' ').count()
}

// Whether a line asks for an answer: an empty one doesn't, nor one that starts with `#`.
pub fn asks(line: &[u8]) -> bool
    ensures { IsTrue result ↔ ((0 < length line.now) × (slice_get line.now 0 ≢ Some 35)) }
{
    !line.is_empty() && !line.starts_with(b"#")
}

// Answers each line of the input that asks for it, of at most `most` bytes. Where there is no answer, `say` says why in its place, of the line with this number.
pub fn answer_lines<A, S>(
    rt: &HostRuntime,
    most: usize,
    mut answer: A,
    mut say: S,
) -> io::Result<()>
where
    A: FnMut(&mut Output, &[u8]) -> Result<(), Unanswered>,
    S: FnMut(Unanswered, &mut Output, u64) -> io::Result<()>,
    requires answer { A.IsAlwaysCallable answer }
    requires say { S.IsAlwaysCallable say }
{
    let alloc = rt.alloc();
    let mut from = buffered_input(alloc, rt.stdin())?;
    let mut out = buffered_output(alloc, rt.stdout())?;
    let mut line = Vec::new(alloc);
    // A proved loop has to end, and nothing says that the input does. So it counts the lines, up to a number that no run reaches.
    for number in 1..u64::MAX {
        flush_before_reading(&mut out, &from)?;
        if !read_line(&mut from, &mut line, most)? {
            break;
        }
        if asks(&line) {
            let answered = if most < line.len() {
                Err(Unanswered::TooLong)
            } else {
                answer(&mut out, &line)
            };
            if let Err(unanswered) = answered {
                say(unanswered, &mut out, number)?;
            }
        }
    }
    out.flush()
}
