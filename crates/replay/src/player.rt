// What is carried from line to line: where the calls are read and the answers are written.
use crate::calls::{Call, Fresh, call_of};
use bars::Question;
use feed::Events;
use lines::{
    Input, MOST, Output, buffered_input, buffered_output, flush_before_reading, read_line,
};
use report_lines::{Analyzer, refusal};
use std::alloc::{AllocError, Global};
use std::fmt;
use std::io::{self, Stdin, Stdout, Write};
use strokes::{Rooms, Stand};

// Why the program stops before its input has ended.
#[derive(Debug, Drop)]
pub enum Failure {
    Unread,
    Unwritten,
    OutOfMemory,
}

impl fmt::Display for Failure {
    fn fmt<W: fmt::Write>(&self, f: &mut fmt::Formatter<W>) -> fmt::Result {
        f.write_str(match self {
            Failure::Unread => "standard input can't be read",
            Failure::Unwritten => "standard output can't be written",
            Failure::OutOfMemory => "no memory is left for the stores",
        })
    }
}

impl From<io::Error> for Failure {
    fn from(_e: io::Error) -> Failure {
        Failure::Unwritten
    }
}

impl From<AllocError> for Failure {
    fn from(_e: AllocError) -> Failure {
        Failure::OutOfMemory
    }
}

// The calls, the answers, the last line that was read, and its number.
#[derive(Drop)]
pub struct Player {
    calls: Input,
    answers: Output,
    line: Vec<u8>,
    number: u64,
}

// The most bars that the program's own stores hold.
const ROOMS: Rooms = Rooms {
    raw: 4096,
    unfinished: 1024,
    strokes: 2048,
};

fn lengths(rooms: Rooms) -> [usize; 3] {
    [rooms.raw, rooms.unfinished, rooms.strokes]
}

// Question 3 of the lengths asked for.
// Kept: beside rooms_fit of sound: that asks Rooms by its definition (is_room); made public for a program's first answer it would be a contract and a name more
// for this one line.
fn are_rooms(asked: Rooms) -> bool {
    lengths(asked).iter().all(|n| (16..=65536).contains(n))
}

// Whether the program's own stores may be as long as asked for.
fn holds(asked: Rooms) -> bool {
    lengths(asked)
        .iter()
        .zip(&lengths(ROOMS))
        .all(|(n, most)| n <= most)
}

impl Player {
    pub fn new(alloc: Global, calls: Stdin, answers: Stdout) -> Result<Player, Failure> {
        Ok(Player {
            calls: buffered_input(alloc, calls).map_err(|_| Failure::Unread)?,
            answers: buffered_output(alloc, answers)?,
            line: Vec::new(alloc),
            number: 0,
        })
    }

    // The call of the next line, if there is one more. Where it may have to be waited for, the answers so far are written first.
    pub fn next_call(&mut self) -> Result<Option<Call>, Failure> {
        flush_before_reading(&mut self.answers, &self.calls)?;
        let read = read_line(&mut self.calls, &mut self.line, MOST);
        if !read.map_err(|_| Failure::Unread)? {
            return Ok(None);
        }
        self.number = self.number.saturating_add(1);
        Ok(Some(call_of(&self.line)))
    }

    // The answer to `n` and `N`: hands back the fresh analyzer that was asked for, where it is accepted. A refusal, question 3 on the lengths asked for, and stores
    // longer than the program's leave the analyzer that was there.
    fn started(&mut self, asked: Fresh) -> io::Result<Option<Fresh>> {
        if let Err(q) = asked.settings.ask() {
            refusal(&mut self.answers, q)?;
        } else if !are_rooms(asked.rooms) {
            refusal(&mut self.answers, Question::Rooms)?;
        } else if !holds(asked.rooms) {
            writeln!(self.answers, "too large")?;
        } else {
            writeln!(self.answers, "ok")?;
            return Ok(Some(asked));
        }
        Ok(None)
    }

    // What a feed answered: `ok MADE BROKEN SHED`, or `no K`.
    pub fn fed(&mut self, r: Result<Events, Question>) -> io::Result<()> {
        match r {
            Ok(e) => writeln!(self.answers, "ok {} {} {}", e.made, e.broken, e.shed),
            Err(q) => refusal(&mut self.answers, q),
        }
    }

    // The answer to a call that asks no analyzer, and `no 4` to one that does, since none is there.
    // Hands back the analyzer that was asked for, where it is accepted.
    pub fn answer(&mut self, call: Call) -> Result<Option<Fresh>, Failure> {
        match call {
            Call::Skip => {}
            Call::Bad => writeln!(self.answers, "bad line {}", self.number)?,
            Call::Start(asked) => return Ok(self.started(asked)?),
            _ => refusal(&mut self.answers, Question::Sound)?,
        }
        Ok(None)
    }

    // The answer to a call that asks an analyzer and leaves it as it is: the reports, or the stand.
    // Kept: beside `answer`: an analyzer is a copy of its stand, which takes longer than the answer to a line that asks none.
    pub fn show(&mut self, call: Call, analyzer: Analyzer<'_>) -> Result<(), Failure> {
        match call {
            Call::Reports => analyzer.report(&mut self.answers)?,
            _ => analyzer.stand_lines(&mut self.answers)?,
        }
        Ok(())
    }

    // The answers before any analyzer, up to an accepted `n` or the last line.
    pub fn first(&mut self) -> Result<Option<Fresh>, Failure> {
        // A proved loop has to end, and nothing says that the input does. So it counts the lines, up to a number that no run reaches.
        // Kept: a loop of its own, see play (analyzers).
        for _ in 0..u64::MAX {
            let Some(call) = self.next_call()? else {
                break;
            };
            let accepted = self.answer(call)?;
            if accepted.is_some() {
                return Ok(accepted);
            }
        }
        Ok(None)
    }

    // Writes the answers so far.
    pub fn flush(&mut self) -> Result<(), Failure> {
        self.answers.flush()?;
        Ok(())
    }
}
