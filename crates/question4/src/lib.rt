// Question 4 as every call asks it. Whatever soundness comes to ask of a stand beyond the stores that it keeps is asked here, above the asking of a feed.
#![tactic(auto)]

ghost use Rattle.std.specs.Prelude.{◌≡◌, cond, Ok, Err};
ghost use Rattle.bars.specs.declared.refusals.Question.TheVariants.{Sound};
ghost use Rattle.strokes.specs.Columns.{stores_in};
ghost use Rattle.question4.specs.Question4.{question4};

use bars::Question;
use strokes::{Stand, StoreColumns};

// Of any stand, whatever the stores hold.
pub fn is_sound(stand: Stand, stores: StoreColumns<'_>) -> bool
    ensures { result ≡ question4 stand (stores_in stores.entry) }
{
    sound::is_sound(stand, stores)
}

// The same as a refusal.
pub fn ask(stand: Stand, stores: StoreColumns<'_>) -> Result<(), Question>
    ensures { result ≡ cond (question4 stand (stores_in stores.entry)) (Ok tt) (Err Sound) }
{
    if is_sound(stand, stores) {
        Ok(())
    } else {
        Err(Question::Sound)
    }
}
