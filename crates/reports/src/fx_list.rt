// get_fx_list of the source, fractal by fractal: those of the kept strokes, then those of the unfinished bars. One is listed if it is later than the last one listed.
ghost use Rattle.std.specs.Prelude.{◌≡◌, true, [], ◌<◌, ◌++◌, length, get_or, IfSome};
ghost use Rattle.std.specs.Iterator.{YieldsFirst, item_count};
ghost use Rattle.std.proofs.Math.Option.{none};
ghost use Rattle.strokes.specs.StateRead.{row_fractal, stored_fractals};
ghost use Rattle.strokes.specs.Columns.{fractals_in, fractals_of, SameFractals};
ghost use Rattle.strokes.specs.FractalRows.{stamp_row, price_row};
ghost use Rattle.reports.specs.Code.FractalWalk.{plain, left};
ghost use Rattle.reports.specs.FractalList.{is_after, later_than};
ghost use Rattle.reports.specs.FxAnswers.{FxDone};
ghost use Rattle.reports.specs.Code.FxListing.{rows_of, GivesRows, stroke_rows, CanRead, CanReadOn, strokes_left, time_of_last, all_left, listed_left, rows_left, CanList};
ghost use Rattle.stores.specs.Code.StoreRows.{RoomRaw};
ghost use Rattle.stores.specs.Columns.{raw_in};

use super::fractal_walk::{FractalBars, FractalWalk};
use bars::Question;
use strokes::{FractalColumns, FractalColumnsMut};

// ---- the rows of a fractal

// The times and the ids of its three bars, and their prices.
#[derive(Clone, Copy)]
pub struct FractalRows {
    pub stamps: [i64; 6],
    pub prices: [f64; 18],
}

impl FractalBars {
    pub fn stamps(self) -> [i64; 6]
        ensures { result ≡ stamp_row (plain self) }
    {
        strokes::stamps_of(self.left, self.mid, self.right)
    }

    pub fn prices(self) -> [f64; 18]
        ensures { result ≡ price_row (plain self) }
    {
        strokes::prices_of(self.left, self.mid, self.right)
    }

    fn rows(self) -> FractalRows
        ensures { result ≡ rows_of (plain self) }
    {
        FractalRows {
            stamps: self.stamps(),
            prices: self.prices(),
        }
    }
}

impl FractalRows {
    // The contract adds what holds of every row: its length.
    fn new(stamps: [i64; 6], prices: [f64; 18]) -> Self
        ensures rows { result ≡ record { stamps = stamps; prices = prices } }
        ensures six { length stamps ≡ 6 }
        ensures eighteen { length prices ≡ 18 }
    {
        FractalRows { stamps, prices }
    }

    // Those at a place of the columns.
    fn at(kept: FractalColumns<'_>, place: usize) -> Self
        requires { (place < length kept.stamps.now) × (place < length kept.prices.now) }
        ensures { result ≡ rows_of (row_fractal (get_or kept.entry.stamps.now place []) (get_or kept.entry.prices.now place [])) }
    {
        FractalRows::new(kept.stamps[place], kept.prices[place])
    }
}

// ---- the fractals of the kept strokes

// Those that are still to come: each stroke's, without its first, as the columns have them. Of each stroke it has the numbers of bars and of fractals; the columns have a row for each bar.
#[derive(Clone, Copy)]
pub struct StrokeFractals<'a> {
    kept: FractalColumns<'a>,
    bars: &'a [u32],
    fractals: &'a [u32],
    // The stroke of the next one, the place where its rows begin, and the place of the next one among them.
    stroke: usize,
    at: usize,
    next: usize,
}

impl<'a> StrokeFractals<'a> {
    pub fn new(kept: FractalColumns<'a>, bars: &'a [u32], fractals: &'a [u32]) -> Self
        requires { CanRead (fractals_in kept) bars.now fractals.now 0 0 }
        ensures can { CanReadOn result }
        ensures left { strokes_left result ≡ stroke_rows bars.now fractals.now (stored_fractals (fractals_in kept.entry)) }
    {
        StrokeFractals {
            kept,
            bars,
            fractals,
            stroke: 0,
            at: 0,
            next: 1,
        }
    }
}

impl<'a> Iterator for StrokeFractals<'a> {
    type Item = FractalRows;

    ghost can_next = { CanReadOn };

    ghost next_gives = { λ s r t. GivesRows (strokes_left s) r (strokes_left t) × CanReadOn t };

    ghost remaining = { item_count strokes_left };

    // Kept: by place. With an iterator over both lists the walk would hold the stroke that it is in beside it, and be no plain copy any more, which is what
    // `list` counts.
    fn next(&mut self) -> Option<FractalRows> {
        while self.stroke < self.bars.len() {
            if self.next < self.fractals[self.stroke] as usize {
                let rows = FractalRows::at(self.kept, self.at + self.next);
                self.next += 1;
                return Some(rows);
            }
            self.at += self.bars[self.stroke] as usize;
            self.stroke += 1;
            self.next = 1;
        }
        None
    }
}

// ---- the list

// The fractals of get_fx_list that are still to come, and the time of the last one listed, if one was.
#[derive(Clone, Copy)]
pub struct FxList<'a> {
    strokes: StrokeFractals<'a>,
    unfinished: FractalWalk<'a>,
    last: Option<i64>,
}

// Whether a fractal of time t is later than the last one listed.
#[tactic(auto, unfolding(crate::specs::FractalList::is_after, crate::specs::Code::FxListing::time_of_last))]
fn is_later(last: Option<i64>, t: i64) -> bool
    ensures { result ≡ is_after (time_of_last last) t }
{
    last.is_none_or(|p| p < t)
}

impl<'a> FxList<'a> {
    // Before the first of them.
    pub fn new(strokes: StrokeFractals<'a>, unfinished: FractalWalk<'a>) -> Self
        requires strokes { CanReadOn strokes }
        requires unfinished { RoomRaw (raw_in unfinished.bars) unfinished.end }
        ensures can { CanList result }
        ensures left { listed_left result ≡ later_than none (strokes_left strokes.entry ++ left unfinished.entry) }
    {
        FxList {
            strokes,
            unfinished,
            last: None,
        }
    }

    // The next fractal, listed or not.
    fn next_rows(&mut self) -> Option<FractalRows>
        requires { CanList self.old }
        ensures gives { GivesRows (all_left self.old) result (all_left self.new) }
        ensures can { IfSome result (λ _. CanList self.new) }
        ensures last { self.new.last ≡ self.old.last }
    {
        if let Some(rows) = self.strokes.next() {
            return Some(rows);
        }
        let fractal = self.unfinished.next()?;
        Some(fractal.rows())
    }
}

impl<'a> Iterator for FxList<'a> {
    type Item = FractalRows;

    ghost can_next = { CanList };

    ghost next_gives = { YieldsFirst rows_left };

    ghost remaining = { item_count rows_left };

    fn next(&mut self) -> Option<FractalRows> {
        while let Some(rows) = self.next_rows() {
            // Kept: the middle bar's time by its place, 1: `[_, time, _, _, _, _]` is no plainer, since the reader has to count the places there as well.
            let time = rows.stamps[1];
            if is_later(self.last, time) {
                self.last = Some(time);
                return Some(rows);
            }
        }
        None
    }
}

// ---- the list in the lent columns

// Written from place 0 on, where the columns have places for all of them: question 14. How many they are.
pub fn list(fxs: FxList<'_>, out: &mut FractalColumnsMut<'_>) -> Result<usize, Question>
    requires can { CanList fxs }
    requires few { length (listed_left fxs) < 4294967296 }
    ensures done { FxDone true (listed_left fxs.entry) (fractals_of out.old) (fractals_of out.new) result }
    ensures same { SameFractals out.old out.new }
{
    let n = fxs.count();
    // Kept: `min` of the two columns, asked here alone: a method of FractalColumnsMut would be this line once more.
    if out.stamps.len().min(out.prices.len()) < n {
        return Err(Question::OutputRoom);
    }
    for (at, rows) in fxs.enumerate() {
        let FractalRows { stamps, prices } = rows;
        out.stamps[at] = stamps;
        out.prices[at] = prices;
    }
    Ok(n)
}
