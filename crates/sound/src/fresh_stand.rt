// The fresh analyzer: CZSC::new of the source, with resolve_min_bi_len and resolve_max_bi_num.
ghost use Rattle.std.specs.Prelude.{◌≡◌, IfOk};
ghost use Rattle.bars.specs.Refusals.{asked};
ghost use Rattle.machine.specs.FeedQuestions.{or_else};
ghost use Rattle.machine.specs.Soundness.{is_room, is_places};
ghost use Rattle.strokes.specs.declared.Stand.{Stand};
ghost use Rattle.strokes.specs.Columns.{stores_in};
ghost use Rattle.sound.specs.FreshStand.{is_asked, question17, rooms_fit, rooms_of, or_default, empty_stand, first_stand, fresh_failed};

use super::soundness::columns_agree;
use bars::Question;
use strokes::{Rooms, Stand, StoreColumns};

// What a fresh analyzer is asked for: the minimum length of a stroke and the most strokes, where 0 is 6 and 50, and the decimal places for power
// and for ratios, each 0 to 6, where 0 is none.
// Kept: 0 and no Option for what the source takes where nothing is asked for, since a C program says it so (czsc_fresh).
#[derive(Clone, Copy)]
pub struct Settings {
    pub minimum: usize,
    pub most: usize,
    pub power: usize,
    pub ratio: usize,
}

impl Settings {
    // Questions 1, 2 and 17.
    pub fn ask(self) -> Result<(), Question>
        ensures { asked result ≡ or_else (is_asked self.minimum) 1 (or_else (is_asked self.most) 2 (or_else (question17 self.power self.ratio) 17 0)) }
    {
        let Settings {
            minimum,
            most,
            power,
            ratio,
        } = self;
        if 64 < minimum {
            return Err(Question::MinimumLength);
        }
        if 64 < most {
            return Err(Question::MostStrokes);
        }
        if !(is_places(power) & is_places(ratio)) {
            return Err(Question::Places);
        }
        Ok(())
    }

    fn empty_stand(self, rooms: Rooms) -> Stand
        ensures { result ≡ empty_stand self.minimum self.most self.power self.ratio rooms }
    {
        Stand {
            minimum: self.minimum,
            most: self.most,
            rooms,
            raw: 0,
            unfinished: 0,
            strokes: 0,
            bars: [0; 65],
            fractals: [0; 65],
            power_places: self.power,
            ratio_places: self.ratio,
        }
    }
}

pub fn is_room(n: usize) -> bool
    ensures { result ≡ is_room n }
{
    (16..=65536).contains(&n)
}

pub fn rooms_fit(rooms: Rooms) -> bool
    ensures { result ≡ rooms_fit rooms }
{
    is_room(rooms.raw) & (is_room(rooms.unfinished) & is_room(rooms.strokes))
}

fn or_default(n: usize, d: usize) -> usize
    ensures { result ≡ or_default n d }
{
    if n == 0 { d } else { n }
}

// How many decimal places a setting may ask for.
pub fn is_places(n: usize) -> bool
    ensures { result ≡ is_places n }
{
    n <= 6
}

// How many bars the lent stores hold, by their columns of times.
fn rooms_of(stores: StoreColumns<'_>) -> Rooms
    ensures { result ≡ rooms_of (stores_in stores.entry) }
{
    Rooms {
        raw: stores.raw.times.len(),
        unfinished: stores.unfinished.times.len(),
        strokes: stores.strokes.times.len(),
    }
}

// A fresh analyzer for the lent stores, whose lengths it records: no cell of them is read.
pub fn new_stand(settings: Settings, stores: StoreColumns<'_>) -> Result<Stand, Question>
    ensures refused { asked result ≡ fresh_failed settings.minimum settings.most settings.power settings.ratio (stores_in stores.entry) }
    ensures begun { IfOk result (λ (s : Stand). s ≡ first_stand settings.minimum settings.most settings.power settings.ratio (stores_in stores.entry)) }
{
    settings.ask()?;
    let rooms = rooms_of(stores);
    if !(columns_agree(rooms, stores) & rooms_fit(rooms)) {
        return Err(Question::Rooms);
    }
    let taken = Settings {
        minimum: or_default(settings.minimum, 6),
        most: or_default(settings.most, 50),
        ..settings
    };
    Ok(taken.empty_stand(rooms))
}
