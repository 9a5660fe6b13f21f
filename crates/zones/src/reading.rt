// Kept strokes and runs of them, read by place off the rows of the fractal store.
ghost use Rattle.std.specs.Prelude.{◌≡◌, take};
ghost use Rattle.strokes.specs.Columns.{fractals_in};
ghost use Rattle.zones.specs.Code.StrokesRead.{summary_from, summary_at, StrokeStands};
ghost use Rattle.zones.specs.Code.Runs.{strokes_in};

use super::kept_run::Run;
use super::lent_zone::no_stroke;
use crate::Summary;
use check_bi::Candle;
use machine::Mark;
use named::{mark_at, middle_at};
use strokes::{FractalColumns, Stand, direction_of, end_index, total_bars};

// The stroke from a fractal of this mark; of its start and of its end, the middle bar.
fn summary_from(mark: Mark, a: Candle, z: Candle) -> Summary
    ensures { result ≡ summary_from mark a z }
{
    Summary {
        direction: direction_of(mark),
        high: arith::max(a.high, z.high),
        low: arith::min(a.low, z.low),
        began: a.time,
        ended: z.time,
    }
}

// The kept stroke at place i.
// Kept: `total_bars` of the stand's counts: a method of Stand for it would be this one call again.
pub fn summary_at(stand: Stand, fractals: FractalColumns<'_>, i: usize) -> Summary
    requires { StrokeStands stand (fractals_in fractals) i }
    ensures { result ≡ summary_at stand (fractals_in fractals.entry) i }
{
    let place = total_bars(stand.bars, i);
    let end = place + end_index(stand.fractals[i] as usize);
    summary_from(
        mark_at(fractals, place),
        middle_at(fractals, place),
        middle_at(fractals, end),
    )
}

impl<'a> Run<'a> {
    // Its strokes, in order from place 0 on.
    // Kept: an array of as many as a run can have, of which the first `count` are its strokes, since there is no heap here, and the run has the count already.
    // Kept: filled by place, since place j has the kept stroke at `first` + j.
    pub fn strokes(self) -> [Summary; 64]
        ensures { take self.entry.count result ≡ strokes_in self.entry }
    {
        let mut strokes = [no_stroke(); 64];
        for j in 0..self.count {
            strokes[j] = summary_at(self.stand, self.fractals, self.first + j);
        }
        strokes
    }
}
