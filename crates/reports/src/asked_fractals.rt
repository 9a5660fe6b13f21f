// The answers of a fractal that is named by its stroke and its place there, or by its place among the
// unfinished bars' fractals.
ghost use Rattle.std.specs.Prelude.{◌≡◌, [], ◌+◌, ◌≤◌, ◌<◌, length, get_or, Ok, Err};
ghost use Rattle.bars.specs.declared.refusals.Question.TheVariants.{Exists};
ghost use Rattle.strokes.specs.StateRead.{row_fractal, state_of};
ghost use Rattle.strokes.specs.Columns.{stores_in};
ghost use Rattle.reports.specs.FractalAnswers.{answers_of};
ghost use Rattle.named.specs.Code.NamedRows.{RowsStand};
ghost use Rattle.named.specs.ReportQuestions.{nth, fractal_at, unfinished_at};
ghost use Rattle.reports.specs.NamedFractals.{StrengthAnswered, stroke_answers_at, unfinished_answers_at};
ghost use Rattle.stores.specs.Columns.{raw_in};
ghost use Rattle.stores.specs.Code.StoreRows.{RoomRaw};
ghost use Rattle.strokes.specs.Code.StrokeSteps.{fractals_between};
ghost use Rattle.reports.specs.Code.FractalWalk.{plain_if};

use super::first_questions::{ask_sound, ask_stroke};
use super::fractal_answers::FractalAnswers;
use super::fractal_walk::{FractalBars, FractalWalk};
use super::rows_shown;
use bars::Question;
use named::StrokeRows;
use stores::RawColumns;
use strokes::{Stand, StoreColumns};

// Of the fractal at a place in the list of a stroke in these rows, if it has so many.
fn answers_in(
    rows: StrokeRows,
    prices: &[[f64; 18]],
    place: usize,
) -> Result<FractalAnswers, Question>
    requires fact_1 { RowsStand rows (length prices.now) }
    requires fact_2 { length prices.now ≤ 65536 }
    ensures { (rows.fractals ≤ place → result ≡ Err Exists) × (place < rows.fractals → result ≡ Ok (answers_of (row_fractal [] (get_or prices.now (rows.first + place) [])))) }
{
    if rows.fractals <= place {
        return Err(Question::Exists);
    }
    Ok(rows_shown::row_answers(prices, rows.first + place))
}

// The answers of a stroke's fractal: the stroke at a place, the oldest at 0, and the fractal at a place in
// its list. Questions 4 and 13.
pub fn stroke_fractal_answers(
    stand: Stand,
    stores: StoreColumns<'_>,
    stroke: usize,
    place: usize,
) -> Result<FractalAnswers, Question>
    ensures { (result ≡ stroke_answers_at stand (stores_in stores.entry) stroke place) × StrengthAnswered (fractal_at (state_of stand (stores_in stores.entry)).strokes stroke place) result }
{
    let rows = ask_stroke(stand, stores, stroke)?;
    let prices = stores.fractals.prices;
    answers_in(rows, prices, place)
}

// The fractal at a place among those of the first n bars, if there are so many.
fn fractal_at(bars: RawColumns<'_>, n: usize, place: usize) -> Option<FractalBars>
    requires { RoomRaw (raw_in bars) n }
    ensures { nth (fractals_between (raw_in bars.entry) 0 n) place ≡ plain_if result }
{
    FractalWalk::new(bars, n).nth(place)
}

// The answers of the fractal at a place among those of the unfinished bars. Questions 4 and 13.
pub fn unfinished_fractal_answers(
    stand: Stand,
    stores: StoreColumns<'_>,
    place: usize,
) -> Result<FractalAnswers, Question>
    ensures { (result ≡ unfinished_answers_at stand (stores_in stores.entry) place) × StrengthAnswered (unfinished_at (state_of stand (stores_in stores.entry)).unfinished place) result }
{
    ask_sound(stand, stores)?;
    let bars = stores.unfinished.bars();
    // Kept: let-else. `ok_or` with `?` was tried in two forms, and what the exit hands up did not prove by itself.
    let Some(f) = fractal_at(bars, stand.unfinished, place) else {
        return Err(Question::Exists);
    };
    Ok(f.answers())
}
