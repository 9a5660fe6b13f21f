// The questions that a report asks before it answers: 4, of the stand and its lent stores, and 13, of a kept stroke that is named by its place.
ghost use Rattle.std.specs.Prelude.{◌≡◌, length};
ghost use Rattle.strokes.specs.Columns.{stores_in};
ghost use Rattle.question4.specs.Question4.{question4};
ghost use Rattle.reports.specs.Code.FirstQuestions.{if_sound, asked_rows};

use bars::Question;
use named::StrokeRows;
use strokes::{Stand, StoreColumns};

// Question 4. The contract adds the lengths of the stand's lists of counts.
// Kept: the lengths as clauses, as in named's contracts: a caller that reads these lists by place has their length from a contract. named::kept has it, and is
// called in ask_sound for nothing else.
#[tactic(auto, unfolding(crate::specs::Code::FirstQuestions::if_sound))]
pub fn ask_sound(stand: Stand, stores: StoreColumns<'_>) -> Result<(), Question>
    ensures value { result ≡ if_sound (question4 stand (stores_in stores.entry)) tt }
    ensures bars { length stand.bars ≡ 65 }
    ensures fractals { length stand.fractals ≡ 65 }
{
    let _ = named::kept(stand);
    question4::ask(stand, stores)
}

// The rows of the kept stroke at a place, the oldest at 0. Questions 4 and 13.
pub fn ask_stroke(
    stand: Stand,
    stores: StoreColumns<'_>,
    place: usize,
) -> Result<StrokeRows, Question>
    ensures value { result ≡ asked_rows stand (stores_in stores.entry) place }
    ensures bars { length stand.bars ≡ 65 }
    ensures fractals { length stand.fractals ≡ 65 }
{
    ask_sound(stand, stores)?;
    if named::kept(stand) <= place {
        return Err(Question::Exists);
    }
    Ok(StrokeRows::of(stand, place))
}
