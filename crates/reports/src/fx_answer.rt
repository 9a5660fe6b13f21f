// The fractals of the kept strokes and of the unfinished bars, each later than the one before: get_fx_list of the
// source, asked of a stand and its lent stores and written to the lent columns `out`. Question 4 is asked first,
// then question 14: whether the columns have places for all that are listed.
ghost use Rattle.strokes.specs.StateRead.{state_of};
ghost use Rattle.strokes.specs.Columns.{fractals_of, stores_in, SameFractals};
ghost use Rattle.question4.specs.Question4.{question4};
ghost use Rattle.reports.specs.FxAnswers.{FxDone, fx_list_of};

use super::first_questions::ask_sound;
use super::fractal_walk::FractalWalk;
use super::fx_list::{FxList, StrokeFractals, list};
use bars::Question;
use strokes::{FractalColumnsMut, Stand, StoreColumns};

// Of any stand: how many fractals are listed. Questions 4 and 14.
pub fn get_fx_list(
    stand: Stand,
    stores: StoreColumns<'_>,
    out: &mut FractalColumnsMut<'_>,
) -> Result<usize, Question>
    ensures done { FxDone (question4 stand (stores_in stores.entry)) (fx_list_of (state_of stand (stores_in stores.entry))) (fractals_of out.old) (fractals_of out.new) result }
    ensures same { SameFractals out.old out.new }
{
    ask_sound(stand, stores)?;
    let k = stand.strokes;
    let strokes = StrokeFractals::new(stores.fractals, &stand.bars[..k], &stand.fractals[..k]);
    let unfinished = FractalWalk::new(stores.unfinished.bars(), stand.unfinished);
    list(FxList::new(strokes, unfinished), out)
}
