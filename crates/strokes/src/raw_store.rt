// The writing steps of a feed on the raw store. Each hands back how many raw bars there are then: of the stand no more changes, and a stand that is handed back is copied whole.
ghost use Rattle.std.specs.Prelude.{◌≡◌, true, false, ◌<◌, ◌≤◌, length, take, int_lt};
ghost use Rattle.std.specs.List.{take_while};
ghost use Rattle.std.specs.Int.Signed.{lt_z};
ghost use Rattle.bars.specs.Lists.{skip_while};
ghost use Rattle.stores.specs.Code.StoreRows.{SizedRaw, place_of};
ghost use Rattle.machine.specs.Feed.{raw_with};
ghost use Rattle.strokes.specs.Code.BarSteps.{HasRaw, kept_raw, with_raw, raw_only};
ghost use Rattle.stores.specs.Columns.{raw_of, SameRaw};

use crate::Stand;
use bars::Bar;
use stores::RawColumnsMut;

// How many times before t stand at the front.
fn early(times: &[i64], t: i64) -> usize
    ensures { result ≡ length (take_while (λ x. int_lt x t) times.now) }
{
    times.iter().take_while(|x| **x < t).count()
}

// How many of the first n times come before the first one that is not before t: the raw bars to drop, and the unfinished bars that
// joining leaves out. What is dropped is passed once and no more, so that a feed's share is a constant.
// Kept: n beside the times: callers hold the whole column, and the part is cut here, once for both of them.
pub fn count_before(times: &[i64], n: usize, t: i64) -> usize
    requires { n ≤ length times.now }
    ensures { result ≡ place_of t (take n times.now) }
{
    early(&times[..n], t)
}

impl Stand {
    // A later bar is put behind the last one, and one that is not later stands in place of the last.
    // Kept: `later` as a bool, since the machine's step takes a Bool (raw_with): an enum would be turned into that in each contract, here and in writing.
    pub fn put_raw(self, raw: &mut RawColumnsMut<'_>, later: bool, b: Bar) -> usize
        requires fact_1 { SizedRaw (raw_of raw.old) self.rooms.raw }
        requires fact_2 { self.raw ≤ self.rooms.raw }
        requires fact_3 { (later ≡ true → self.raw < self.rooms.raw) }
        requires fact_4 { (later ≡ false → 1 ≤ self.raw) }
        ensures has { HasRaw self (with_raw self result) (raw_of raw.new) (raw_with later (raw_only (kept_raw self (raw_of raw.old))) b) }
        ensures same { SameRaw raw.old raw.new }
    {
        let n = self.raw;
        if later {
            raw.put_bar(n, b);
            return n + 1;
        }
        raw.put_bar(n - 1, b);
        n
    }

    // The raw bars earlier than t are dropped, and the others begin the store. Mostly there are none, and nothing is moved.
    pub fn drop_raw(self, raw: &mut RawColumnsMut<'_>, t: i64) -> usize
        requires fact_1 { SizedRaw (raw_of raw.old) self.rooms.raw }
        requires fact_2 { self.raw ≤ self.rooms.raw }
        ensures has { HasRaw self (with_raw self result) (raw_of raw.new) (skip_while (λ k. lt_z k.time t) (kept_raw self (raw_of raw.old))) }
        ensures same { SameRaw raw.old raw.new }
    {
        let n = self.raw;
        let k = count_before(raw.seen().times, n, t);
        if k == 0 {
            return n;
        }
        let left = n - k;
        raw.move_bars(k, 0, left);
        left
    }
}
