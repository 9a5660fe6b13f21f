// One line: which call it is.
use bar_lines::read_bar;
use bars::Bar;
use lines::{MOST, Words, whole};
use sound::Settings;
use strokes::Rooms;

// What a fresh analyzer is asked for: its settings, and how many bars each of its stores holds.
#[derive(Clone, Copy)]
pub struct Fresh {
    pub settings: Settings,
    pub rooms: Rooms,
}

// Which call a line is, if any: a fresh analyzer, a feed of a bar, the stand, the reports, a line to pass over.
#[derive(Clone, Copy)]
pub enum Call {
    Start(Fresh),
    Feed(Bar),
    Stand,
    Reports,
    Skip,
    Bad,
}

// A whole number from 0 to 2^63 - 1, without a sign.
fn count(words: &mut Words<'_>) -> Option<usize> {
    let word = words.next()?;
    if word.starts_with('-') {
        return None;
    }
    usize::try_from(whole::<i64>(word)?).ok()
}

fn rooms(words: &mut Words<'_>) -> Option<Rooms> {
    Some(Rooms {
        raw: count(words)?,
        unfinished: count(words)?,
        strokes: count(words)?,
    })
}

// `n MIN MAX RAW UBI STROKE`: 2 places for power and 4 for ratios.
fn start(words: &mut Words<'_>) -> Option<Call> {
    Some(Call::Start(Fresh {
        settings: Settings {
            minimum: count(words)?,
            most: count(words)?,
            power: 2,
            ratio: 4,
        },
        rooms: rooms(words)?,
    }))
}

// `N MIN MAX POWER RATIO RAW UBI STROKE`
// Kept: beside `start`: the places stand in the middle of the line, so one function for both would take a switch for whether they are read.
fn start_with_places(words: &mut Words<'_>) -> Option<Call> {
    Some(Call::Start(Fresh {
        settings: Settings {
            minimum: count(words)?,
            most: count(words)?,
            power: count(words)?,
            ratio: count(words)?,
        },
        rooms: rooms(words)?,
    }))
}

fn read_call(line: &str) -> Option<Call> {
    let mut words = line.split(' ');
    let call = match words.next()? {
        "n" => start(&mut words)?,
        "N" => start_with_places(&mut words)?,
        "b" => Call::Feed(read_bar(&mut words)?),
        "d" => Call::Stand,
        "r" => Call::Reports,
        _ => return None,
    };
    words.next().is_none().then_some(call)
}

pub fn call_of(line: &[u8]) -> Call {
    if !lines::asks(line) {
        return Call::Skip;
    }
    match lines::text(line, MOST) {
        Ok(text) => read_call(text).unwrap_or(Call::Bad),
        Err(_) => Call::Bad,
    }
}
