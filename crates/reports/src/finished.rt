// The finished strokes, and whether the unfinished bars reach beyond the last stroke: get_finished_bis and
// last_bi_extend of the source, asked of a stand and its lent stores. Question 4 is asked first.
ghost use Rattle.std.specs.Prelude.{ℕ, ◌≡◌, map, get_or, Ok};
ghost use Rattle.std.specs.Float.{nan};
ghost use Rattle.strokes.specs.StateRead.{state_of};
ghost use Rattle.strokes.specs.Columns.{stores_in};
ghost use Rattle.sound.specs.StandSound.{IsSound};
ghost use Rattle.named.specs.Folds.{greatest, least};
ghost use Rattle.reports.specs.FractalList.{get_finished_bis, last_bi_extend};
ghost use Rattle.named.specs.ReportQuestions.{run_of};
ghost use Rattle.reports.specs.ListAnswers.{finished_answer, extend_answer};
ghost use Rattle.reports.specs.Code.ListSteps.{finished_count, reaches};

use super::first_questions::ask_sound;
use bars::Question;
use machine::Direction;
use named::kept;
use strokes::{LastStroke, Stand, StoreColumns};

// ---- get_finished_bis

fn finished_count(strokes: usize, unfinished: usize) -> usize
    ensures { result ≡ finished_count strokes unfinished }
{
    if 5 <= unfinished {
        strokes
    } else {
        strokes.saturating_sub(1)
    }
}

// How many of the kept strokes are finished: they are the first so many.
pub fn get_finished_bis(stand: Stand, stores: StoreColumns<'_>) -> Result<usize, Question>
    ensures value { result ≡ finished_answer stand (stores_in stores.entry) }
    ensures count_value { (n : ℕ) → result ≡ Ok n → run_of (state_of stand (stores_in stores.entry)).strokes 0 n ≡ get_finished_bis (state_of stand (stores_in stores.entry)).strokes (state_of stand (stores_in stores.entry)).unfinished }
{
    ask_sound(stand, stores)?;
    Ok(finished_count(stand.strokes, stand.unfinished))
}

// ---- last_bi_extend

// Kept: two folds, since they differ in where they begin, in which of two numbers they keep and in the place in a row: one function would take all three for
// its one line. The rows by their places, 2 for the high and 3 for the low: `[_, _, high, _, _, _]` is no plainer, since the reader has to count the
// places there as well.

// The greatest high of these rows, from minus infinity.
fn greatest_high(rows: &[[f64; 6]]) -> f64
    ensures { result ≡ greatest (map (λ p. get_or p 2 nan) rows.now) }
{
    rows.iter()
        .fold(f64::NEG_INFINITY, |h, p| arith::max(h, p[2]))
}

// The least low of these rows, from infinity.
fn least_low(rows: &[[f64; 6]]) -> f64
    ensures { result ≡ least (map (λ p. get_or p 3 nan) rows.now) }
{
    rows.iter().fold(f64::INFINITY, |l, p| arith::min(l, p[3]))
}

// Whether these rows reach beyond a stroke.
#[tactic(auto, unfolding(crate::specs::Code::ListSteps::reaches))]
fn rows_reach(b: LastStroke, rows: &[[f64; 6]]) -> bool
    ensures { result ≡ reaches b.direction b.high b.low rows.now }
{
    match b.direction {
        Direction::Up => b.high < greatest_high(rows),
        Direction::Down => least_low(rows) < b.low,
    }
}

// Whether the unfinished bars of a sound stand reach beyond its last stroke.
fn last_extends(stand: Stand, stores: StoreColumns<'_>) -> bool
    requires { IsSound stand (stores_in stores) }
    ensures { result ≡ last_bi_extend (state_of stand (stores_in stores.entry)).strokes (state_of stand (stores_in stores.entry)).unfinished }
{
    let k = kept(stand);
    let n = stand.unfinished;
    if k == 0 || n == 0 {
        return false;
    }
    let rows = stores.unfinished.prices;
    let b = strokes::last_stroke(stand, stores.strokes.times, stores.fractals.prices);
    rows_reach(b, &rows[..n])
}

// Whether the last stroke goes on.
pub fn last_bi_extend(stand: Stand, stores: StoreColumns<'_>) -> Result<bool, Question>
    ensures { result ≡ extend_answer stand (stores_in stores.entry) }
{
    ask_sound(stand, stores)?;
    Ok(last_extends(stand, stores))
}
