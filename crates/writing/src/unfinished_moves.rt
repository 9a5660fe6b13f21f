// What a feed writes to the unfinished store: the bar that is merged, and the bars that are left once strokes were made or broken. Each
// step hands back how many unfinished bars there are then, and also says that no bar comes to have more than 101 elements.
ghost use Rattle.std.specs.Prelude.{is_some, ◌≤◌, drop, T};
ghost use Rattle.stores.specs.Columns.{raw_in, merged_in, merged_of, SameMerged};
ghost use Rattle.stores.specs.Code.StoreRows.{SizedMerged};
ghost use Rattle.machine.specs.Break.{joined};
ghost use Rattle.strokes.specs.Code.BarSteps.{HasUnfinished, kept_unfinished, with_unfinished, without_last, stored_stroke};
ghost use Rattle.strokes.specs.Code.StrokeSteps.{last_place, last_bars};
ghost use Rattle.strokes.specs.StateRead.{bar_counts, total, elements_sized};
ghost use Rattle.strokes.specs.Code.ElementCounts.{StaySized};
ghost use Rattle.writing.specs.Code.WriteSteps.{CanPut, merged_from, CanBreak, CanLeave, left_stand, left_bars, rest_of};

use asking::Plan;
use bars::Bar;
use stores::{MergedColumns, MergedColumnsMut, RawColumns};
use strokes::Stand;

// A bar that passed its questions is merged into the unfinished bars. The raw store is as it was before the bar came.
// Kept: `later` as a bool, since the machine's step takes a Bool (merged_with, raw_with): an enum would be turned into that in each contract.
pub fn put_bar(
    stand: Stand,
    raw: RawColumns<'_>,
    unfinished: &mut MergedColumnsMut<'_>,
    later: bool,
    b: Bar,
) -> usize
    requires { CanPut stand (raw_in raw) (merged_of unfinished.old) later b }
    ensures has { HasUnfinished stand (with_unfinished stand result) (merged_of unfinished.new) (merged_from later stand (raw_in raw.entry) (merged_of unfinished.old) b) }
    ensures sized { StaySized stand.unfinished (merged_of unfinished.old) result (merged_of unfinished.new) }
    ensures same { SameMerged unfinished.old unfinished.new }
{
    if later {
        return stand.put_merged(unfinished, b);
    }
    stand.put_again(raw, unfinished, b)
}

// The last stroke, whose bars stand in the stroke store, breaks.
fn join_last(
    stand: Stand,
    unfinished: &mut MergedColumnsMut<'_>,
    strokes: MergedColumns<'_>,
) -> usize
    requires fact_1 { SizedMerged (merged_of unfinished.old) stand.rooms.unfinished }
    requires fact_2 { SizedMerged (merged_in strokes) stand.rooms.strokes }
    requires fact_3 { stand.unfinished ≤ stand.rooms.unfinished }
    requires fact_4 { CanBreak stand (merged_in strokes) (kept_unfinished stand (merged_of unfinished.old)) }
    ensures has_unfinished { HasUnfinished (without_last stand) (with_unfinished (without_last stand) result) (merged_of unfinished.new) (joined (stored_stroke (merged_in strokes.entry) (last_place stand) (last_bars stand)) (kept_unfinished stand (merged_of unfinished.old))) }
    ensures stay_sized { T (elements_sized (total (bar_counts stand)) (merged_in strokes.entry)) → StaySized stand.unfinished (merged_of unfinished.old) result (merged_of unfinished.new) }
    ensures same { SameMerged unfinished.old unfinished.new }
{
    let n = stand.strokes - 1;
    let at = strokes::total_bars(stand.bars, n);
    let rows = stand.bars[n] as usize;
    stand.join_broken(unfinished, strokes, at, rows)
}

// The unfinished bars that the plan leaves: those from the found stroke's end on, and where the last stroke breaks, its bars before them.
pub fn leave(
    stand: Stand,
    unfinished: &mut MergedColumnsMut<'_>,
    strokes: MergedColumns<'_>,
    plan: Plan,
) -> usize
    requires { CanLeave stand (merged_of unfinished.old) (merged_in strokes) plan }
    ensures has_unfinished { HasUnfinished (left_stand (is_some plan.broken) stand) (with_unfinished (left_stand (is_some plan.broken) stand) result) (merged_of unfinished.new) (left_bars (is_some plan.broken) stand (merged_in strokes.entry) (drop (rest_of plan) (kept_unfinished stand (merged_of unfinished.old)))) }
    ensures stay_sized { T (elements_sized (total (bar_counts stand)) (merged_in strokes.entry)) → StaySized stand.unfinished (merged_of unfinished.old) result (merged_of unfinished.new) }
    ensures same { SameMerged unfinished.old unfinished.new }
{
    let rest = plan.cut + asking::end_in(plan.found);
    let n = stand.begin_at(unfinished, rest);
    if plan.broken.is_some() {
        let left = Stand {
            unfinished: n,
            ..stand
        };
        return join_last(left, unfinished, strokes);
    }
    n
}
