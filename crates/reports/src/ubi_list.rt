// The fractals of the unfinished bars, oldest first: the list `fxs` of the source's get_ubi, asked of a stand and its lent
// stores and written to the lent columns `out`, in the rows of get_fx_list. Question 4 is asked first, then question 14.
// A list without strokes has them all, since their times rise.
ghost use Rattle.strokes.specs.StateRead.{state_of};
ghost use Rattle.strokes.specs.Columns.{fractals_of, stores_in, SameFractals};
ghost use Rattle.question4.specs.Question4.{question4};
ghost use Rattle.reports.specs.FxAnswers.{FxDone, ubi_fxs_of};

use super::first_questions::ask_sound;
use super::fractal_walk::FractalWalk;
use super::fx_list::{FxList, StrokeFractals, list};
use bars::Question;
use strokes::{FractalColumnsMut, Stand, StoreColumns};

// Of any stand: how many they are. Questions 4 and 14.
pub fn ubi_fxs(
    stand: Stand,
    stores: StoreColumns<'_>,
    out: &mut FractalColumnsMut<'_>,
) -> Result<usize, Question>
    ensures done { FxDone (question4 stand (stores_in stores.entry)) (ubi_fxs_of (state_of stand (stores_in stores.entry))) (fractals_of out.old) (fractals_of out.new) result }
    ensures same { SameFractals out.old out.new }
{
    ask_sound(stand, stores)?;
    let strokes = StrokeFractals::new(stores.fractals, &[], &[]);
    let unfinished = FractalWalk::new(stores.unfinished.bars(), stand.unfinished);
    list(FxList::new(strokes, unfinished), out)
}
