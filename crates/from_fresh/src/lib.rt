// The step of a feed for callers that prove where their stand came from: a fresh analyzer, by such steps.
#![tactic(auto)]

ghost use Rattle.check_bi.specs.Code.Windows.{NoFractals};
ghost use Rattle.strokes.specs.Columns.{written_in, SameColumns};
ghost use Rattle.feed.specs.Answers.{FeedAnswers};
ghost use Rattle.feed.specs.PortClaims.{PortDemand3};
ghost use Rattle.from_fresh.specs.FromFresh.{FromFresh};

mod windows;

use bars::{Bar, Question};
use feed::{Events, feed_sound};
use stores::{MergedColumnsMut, RawColumnsMut};
use strokes::{FractalColumnsMut, Stand};
pub use windows::{Counts, clear_after};

// update_bar of a stand and stores that a list of feeds from a fresh analyzer left. What update_bar ensures; and what is left again comes from a fresh analyzer, so that the next bar may follow. Of
// question 4 it asks the clause on the newest raw bar alone, at constant cost: the other clauses hold of every such stand. The first `clear` windows of the unfinished bars hold no fractal: 0, or what
// clear_after answered of the feed before.
// Kept: four values to be written, and `clear` as a number, as in feed_sound.
pub fn update_from_fresh(
    stand: &mut Stand,
    raw: &mut RawColumnsMut<'_>,
    unfinished: &mut MergedColumnsMut<'_>,
    strokes: &mut MergedColumnsMut<'_>,
    fractals: &mut FractalColumnsMut<'_>,
    b: Bar,
    clear: usize,
) -> Result<Events, Question>
    requires from_fresh { FromFresh stand.old (written_in raw.old unfinished.old strokes.old fractals.old) }
    requires clear { NoFractals unfinished.old.prices.now clear }
    ensures feed { FeedAnswers stand.old (written_in raw.old unfinished.old strokes.old fractals.old) b result stand.new (written_in raw.new unfinished.new strokes.new fractals.new) }
    ensures demand3 { PortDemand3 }
    ensures from_fresh { FromFresh stand.new (written_in raw.new unfinished.new strokes.new fractals.new) }
    ensures same { SameColumns raw.old unfinished.old strokes.old fractals.old raw.new unfinished.new strokes.new fractals.new }
{
    let r = raw.seen();
    let u = unfinished.seen();
    // Kept: a test, since question4::ask asks all clauses, and a function that refuses by this one would be called here alone.
    if sound::newest_is_last(*stand, r.times, u.counts, u.elements) {
        return feed_sound(stand, raw, unfinished, strokes, fractals, b, clear);
    }
    Err(Question::Sound)
}
