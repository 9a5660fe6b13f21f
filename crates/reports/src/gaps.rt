// Gaps between neighbouring kept raw bars: check_gap_info of the source, asked of a stand and its lent stores, one pair or
// all of them. Question 4 is asked first.
ghost use Rattle.std.specs.Prelude.{◌≡◌, Ok, Option};
ghost use Rattle.bars.specs.declared.gaps.Gap.{Gap as GapOf};
ghost use Rattle.bars.specs.Gaps.{gap_columns};
ghost use Rattle.strokes.specs.Columns.{stores_in};
ghost use Rattle.reports.specs.GapAnswers.{kept_prices, gap_report, ListedAt, gaps_answered, gaps_report};

use super::first_questions::ask_sound;
use bars::{Gap, Question};
use strokes::{Stand, StoreColumns};

// The kept raw bars at `place` and `place` + 1. Where it answers, the gap is what check_gaps lists at that place. Questions 4
// and 13.
pub fn check_gap_info(
    stand: Stand,
    stores: StoreColumns<'_>,
    place: usize,
) -> Result<Option<Gap>, Question>
    ensures report { result ≡ gap_report stand (stores_in stores.entry) place }
    ensures listed { (g : Option GapOf) → result ≡ Ok g → ListedAt stand.ratio_places (kept_prices stand (stores_in stores.entry)) place g }
{
    ask_sound(stand, stores)?;
    bars::gap_among(stand.ratio_places, stores.raw.prices, stand.raw, place)
}

// All pairs, oldest first, into lent columns: which kind of gap, its edges and ratio, whether it was covered. Kinds 3 and 4 have no
// ratio (bars, gap_number). Question 14 asks whether each column has a place for each pair; where it has not, nothing is written.
// How many pairs they are.
// Kept: columns side by side, with numbers for kinds, since the definition of the answer (gaps_report) is of these columns, as docs/STORES.md has them, and
// definitions keep their meaning.
pub fn check_gaps(
    stand: Stand,
    stores: StoreColumns<'_>,
    kinds: &mut [u64],
    values: &mut [[f64; 3]],
    covered: &mut [bool],
) -> Result<usize, Question>
    ensures { gaps_answered result (gap_columns kinds.new values.new covered.new) ≡ gaps_report stand (stores_in stores.entry) (gap_columns kinds.old values.old covered.old) }
{
    ask_sound(stand, stores)?;
    let prices = stores.raw.prices;
    let n = stand.raw;
    bars::list_gaps(stand.ratio_places, prices, n, kinds, values, covered)?;
    Ok(bars::pairs(n))
}
