// Feed: update_bar of the source. Every question is asked before anything is written, so that a refusal leaves every cell as it was.
ghost use Rattle.strokes.specs.Columns.{written_in, SameColumns};
ghost use Rattle.sound.specs.StandSound.{IsSound};
ghost use Rattle.check_bi.specs.Code.Windows.{NoFractals};
ghost use Rattle.feed.specs.Answers.{FeedAnswers};
ghost use Rattle.feed.specs.PortClaims.{PortDemand3};

use crate::Events;
use bars::{Bar, Question};
use stores::{MergedColumnsMut, RawColumnsMut};
use strokes::{FractalColumnsMut, Stand, StoreColumns};

// CZSC of the source: the stand, of which update_bar is a method. What it holds lies in lent stores.
#[derive(Clone, Copy)]
pub struct Czsc {
    pub stand: Stand,
}

// The feed of a stand that question 4 has passed: questions 5 to 12, then the step. Only for callers that prove it sound: those that have just asked question 4 (update_bar, the C names), and
// from_fresh, whose stands come from a fresh analyzer and which asks the one clause that can fail there. The first `clear` windows of the unfinished bars hold no
// fractal: a caller that knows of none says 0.
// Kept: four values to be written, here and below, as StoreColumns (strokes) says. `clear` is a number with its claim in `requires`: the rows that it speaks of
// are lent to be written, so no value can hold both.
pub fn feed_sound(
    stand: &mut Stand,
    raw: &mut RawColumnsMut<'_>,
    unfinished: &mut MergedColumnsMut<'_>,
    strokes: &mut MergedColumnsMut<'_>,
    fractals: &mut FractalColumnsMut<'_>,
    b: Bar,
    clear: usize,
) -> Result<Events, Question>
    requires sound { IsSound stand.old (written_in raw.old unfinished.old strokes.old fractals.old) }
    requires clear { NoFractals unfinished.old.prices.now clear }
    ensures feed { FeedAnswers stand.old (written_in raw.old unfinished.old strokes.old fractals.old) b result stand.new (written_in raw.new unfinished.new strokes.new fractals.new) }
    ensures same { SameColumns raw.old unfinished.old strokes.old fractals.old raw.new unfinished.new strokes.new fractals.new }
{
    let stores = StoreColumns::of(raw, unfinished, strokes, fractals);
    let asked = asking::ask(*stand, stores, b, clear)?;
    let w = writing::write(
        *stand,
        raw,
        unfinished,
        strokes,
        fractals,
        asked.later,
        asked.plan,
        b,
    );
    *stand = w.stand;
    // Kept: field by field, since Events is what feeds count, and writing, which is below feed and a part of its step, has them as three numbers of Wrote.
    Ok(Events {
        made: w.made,
        broken: w.broken,
        shed: w.shed,
    })
}

impl Czsc {
    // A bar is fed. The contract says what each answer is, refusals too, and what every list of such calls from a fresh analyzer has: demand 3.
    // The cells beyond the counts are free; the lengths of the stores are not.
    pub fn update_bar(
        &mut self,
        raw: &mut RawColumnsMut<'_>,
        unfinished: &mut MergedColumnsMut<'_>,
        strokes: &mut MergedColumnsMut<'_>,
        fractals: &mut FractalColumnsMut<'_>,
        b: Bar,
    ) -> Result<Events, Question>
        ensures feed { FeedAnswers self.old.stand (written_in raw.old unfinished.old strokes.old fractals.old) b result self.new.stand (written_in raw.new unfinished.new strokes.new fractals.new) }
        ensures demand3 { PortDemand3 }
        ensures same { SameColumns raw.old unfinished.old strokes.old fractals.old raw.new unfinished.new strokes.new fractals.new }
    {
        let stores = StoreColumns::of(raw, unfinished, strokes, fractals);
        question4::ask(self.stand, stores)?;
        feed_sound(&mut self.stand, raw, unfinished, strokes, fractals, b, 0)
    }
}
