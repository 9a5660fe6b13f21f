// What a feed writes to the stroke store.
ghost use Rattle.std.specs.Prelude.{◌≡◌, is_some, true, ◌+◌, ◌≤◌};
ghost use Rattle.asking.specs.Code.FeedPlan.{start_in, bars_made};
ghost use Rattle.stores.specs.Columns.{merged_in, merged_of, SameMerged};
ghost use Rattle.strokes.specs.Columns.{fractals_of, SameFractals};
ghost use Rattle.strokes.specs.Code.BarSteps.{with_unfinished};
ghost use Rattle.writing.specs.Code.WriteSteps.{CanMake, MadeWhere, left_stand};
ghost use Rattle.writing.specs.Code.Written.{CanMove, HasLeft, HasMoved};

use crate::Wrote;
use crate::unfinished_moves::leave;
use asking::Plan;
use stores::{MergedColumns, MergedColumnsMut};
use strokes::{FractalColumnsMut, Stand};

// The stroke that was found, if one was, is put on.
pub fn make_if(
    stand: Stand,
    unfinished: MergedColumns<'_>,
    strokes: &mut MergedColumnsMut<'_>,
    fractals: &mut FractalColumnsMut<'_>,
    plan: Plan,
) -> Stand
    requires { CanMake stand (merged_in unfinished) (merged_of strokes.old) (fractals_of fractals.old) plan }
    ensures made { MadeWhere (is_some plan.found) stand (merged_in unfinished.entry) (merged_of strokes.old) (fractals_of fractals.old) (plan.cut + start_in plan.found) (bars_made plan.found) result (merged_of strokes.new) (fractals_of fractals.new) }
    ensures same_strokes { SameMerged strokes.old strokes.new }
    ensures same_fractals { SameFractals fractals.old fractals.new }
{
    if let Some(f) = plan.found {
        let first = plan.cut + f.start.place;
        return stand.make_stroke(unfinished, strokes, fractals, first, f.bars);
    }
    stand
}

// The stand once n unfinished bars are left, by whether its last stroke breaks.
// Kept: a copy that is changed, since the number of strokes changes in one case alone: `Stand { unfinished: n, strokes, ..stand }` would need an if
// with an else before it.
fn left_with(stand: Stand, broken: Option<usize>, n: usize) -> Stand
    requires { is_some broken ≡ true → 1 ≤ stand.strokes }
    ensures { result ≡ with_unfinished (left_stand (is_some broken) stand) n }
{
    let mut left = stand;
    left.unfinished = n;
    if broken.is_some() {
        left.strokes -= 1;
    }
    left
}

// The stroke that was found is put on, and the bars that the plan leaves stay.
fn make_and_leave(
    stand: Stand,
    unfinished: &mut MergedColumnsMut<'_>,
    strokes: &mut MergedColumnsMut<'_>,
    fractals: &mut FractalColumnsMut<'_>,
    plan: Plan,
) -> Stand
    requires { CanMove stand (merged_of unfinished.old) (merged_of strokes.old) (fractals_of fractals.old) plan }
    ensures left { HasLeft stand (merged_of unfinished.old) (merged_of strokes.old) (fractals_of fractals.old) result (merged_of unfinished.new) (merged_of strokes.new) (fractals_of fractals.new) }
    ensures same_unfinished { SameMerged unfinished.old unfinished.new }
    ensures same_strokes { SameMerged strokes.old strokes.new }
    ensures same_fractals { SameFractals fractals.old fractals.new }
{
    let made = make_if(stand, unfinished.seen(), strokes, fractals, plan);
    let n = leave(made, unfinished, strokes.seen(), plan);
    left_with(made, plan.broken, n)
}

// update_bi of the source, as the plan has it: once the bar is merged, a stroke that was found is put on, the last one may break, and the oldest one
// beyond the most goes.
pub fn update_bi(
    stand: Stand,
    unfinished: &mut MergedColumnsMut<'_>,
    strokes: &mut MergedColumnsMut<'_>,
    fractals: &mut FractalColumnsMut<'_>,
    plan: Plan,
) -> Wrote
    requires { CanMove stand (merged_of unfinished.old) (merged_of strokes.old) (fractals_of fractals.old) plan }
    ensures moved { HasMoved stand (merged_of unfinished.old) (merged_of strokes.old) (fractals_of fractals.old) result (merged_of unfinished.new) (merged_of strokes.new) (fractals_of fractals.new) }
    ensures same_unfinished { SameMerged unfinished.old unfinished.new }
    ensures same_strokes { SameMerged strokes.old strokes.new }
    ensures same_fractals { SameFractals fractals.old fractals.new }
{
    let made = u64::from(plan.found.is_some());
    let broken = u64::from(plan.broken.is_some());
    let left = make_and_leave(stand, unfinished, strokes, fractals, plan);
    let shed = u64::from(left.most < left.strokes);
    let kept = left.shed_if(strokes, fractals);
    Wrote {
        stand: kept,
        made,
        broken,
        shed,
    }
}
