// What a feed writes to the raw store.
ghost use Rattle.std.specs.Prelude.{length, get_or, pos};
ghost use Rattle.machine.specs.Feed.{raw_with};
ghost use Rattle.strokes.specs.Code.BarSteps.{HasRaw, kept_raw, with_raw, raw_only};
ghost use Rattle.writing.specs.Code.WriteSteps.{CanKeep, drop_earlier};
ghost use Rattle.stores.specs.Columns.{raw_of, SameRaw};

use bars::Bar;
use stores::{MergedColumns, RawColumnsMut};
use strokes::Stand;

// The raw bar is put on or replaces the last one, and with a stroke kept, raw bars earlier than the stroke store's first time are dropped. Hands back how
// many there are then.
// Kept: `later` as a bool, as in put_bar (unfinished_moves.rt) and for the same reason.
pub fn keep_raw(
    stand: Stand,
    raw: &mut RawColumnsMut<'_>,
    strokes: MergedColumns<'_>,
    later: bool,
    b: Bar,
) -> usize
    requires { CanKeep stand (raw_of raw.old) (length strokes.times.now) later }
    ensures has { HasRaw stand (with_raw stand result) (raw_of raw.new) (drop_earlier stand.strokes (get_or strokes.entry.times.now 0 (pos 0)) (raw_with later (raw_only (kept_raw stand (raw_of raw.old))) b)) }
    ensures same { SameRaw raw.old raw.new }
{
    let n = stand.put_raw(raw, later, b);
    if stand.strokes == 0 {
        return n;
    }
    let put = Stand { raw: n, ..stand };
    put.drop_raw(raw, strokes.times[0])
}
