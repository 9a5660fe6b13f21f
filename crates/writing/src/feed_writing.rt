// What a feed of a bar that passed its questions writes to the lent stores.
ghost use Rattle.stores.specs.Columns.{SameRaw, SameMerged};
ghost use Rattle.strokes.specs.Columns.{written_in, SameFractals};
ghost use Rattle.writing.specs.Code.Written.{CanWrite, IsWritten};

use crate::Wrote;
use crate::raw_moves::keep_raw;
use crate::stroke_moves::update_bi;
use crate::unfinished_moves::put_bar;
use asking::Plan;
use bars::Bar;
use stores::{MergedColumnsMut, RawColumnsMut};
use strokes::{FractalColumnsMut, Stand};

// The machine's step on the stores. The raw store is written last, since the elements of a replaced bar are read from it as it was. For the feed above: a caller proves that the stand is sound, that
// questions 5 to 12 have passed, and that `later` and `plan` are what was asked.
// Kept: `later` as a bool, as in put_bar (unfinished_moves.rt) and for the same reason.
// Kept: the stand, four values to be written and the plan as parameters, here and in the steps. Tried: a value of the four, and one that borrows them.
// What a slice ends as is known to a caller that put it into a store's columns, and no longer where that store stands in a larger value.
pub fn write(
    stand: Stand,
    raw: &mut RawColumnsMut<'_>,
    unfinished: &mut MergedColumnsMut<'_>,
    strokes: &mut MergedColumnsMut<'_>,
    fractals: &mut FractalColumnsMut<'_>,
    later: bool,
    plan: Plan,
    b: Bar,
) -> Wrote
    requires { CanWrite stand (written_in raw.old unfinished.old strokes.old fractals.old) b later plan }
    ensures written { IsWritten stand (written_in raw.old unfinished.old strokes.old fractals.old) b result (written_in raw.new unfinished.new strokes.new fractals.new) }
    ensures same_raw { SameRaw raw.old raw.new }
    ensures same_unfinished { SameMerged unfinished.old unfinished.new }
    ensures same_strokes { SameMerged strokes.old strokes.new }
    ensures same_fractals { SameFractals fractals.old fractals.new }
{
    let n = put_bar(stand, raw.seen(), unfinished, later, b);
    let put = Stand {
        unfinished: n,
        ..stand
    };
    let mut wrote = update_bi(put, unfinished, strokes, fractals, plan);
    let kept = keep_raw(wrote.stand, raw, strokes.seen(), later, b);
    wrote.stand.raw = kept;
    wrote
}
