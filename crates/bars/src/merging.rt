// Document 01's merging, remove_include of the source: with the elements, and without them, for asking what a bar would do.
ghost use Rattle.std.specs.Prelude.{◌≡◌, ◌&&◌, ◌≤◌};
ghost use Rattle.std.specs.Option.{IfSome, option_map};
ghost use Rattle.std.specs.Float.Ieee.{le};
ghost use Rattle.bars.specs.Bars.{merged_of, own};
ghost use Rattle.bars.specs.Merging.{contains};
ghost use Rattle.bars.specs.Code.MergedBars.{united_bar, merged_up_bar, merged_down_bar, remove_include_bar, remove_include_after, in_place_of, with_element};

use crate::{Bar, NewBar};

// Whether b's range contains a's, equal edges counted.
fn within(a: Bar, b: Bar) -> bool
    ensures { result ≡ (le a.high b.high && le b.low a.low) }
{
    a.high <= b.high && b.low <= a.low
}

// Whether one's range contains the other's, equal edges counted.
#[tactic(auto, unfolding(crate::specs::Merging::contains))]
fn contains(a: Bar, b: Bar) -> bool
    ensures { result ≡ contains a b }
{
    within(a, b) || within(b, a)
}

// k2 and k3 as one bar of this time, high and low.
fn united(k2: Bar, k3: Bar, time: i64, high: f64, low: f64) -> Bar
    ensures { result ≡ united_bar k2 k3 time high low }
{
    let (open, close) = if k3.close < k3.open {
        (high, low)
    } else {
        (low, high)
    };
    Bar {
        time,
        id: k2.id,
        open,
        close,
        high,
        low,
        vol: k2.vol + k3.vol,
        amount: k2.amount + k3.amount,
    }
}

// k2 and k3 after a lower bar: the larger high and low, and k2's time only if its high is above k3's.
// Kept: a function for each way. They differ in the pick of both edges and in the edge that the time goes by, and each is a rule of document 01: one function would
// have a branch for each of the three.
fn merged_up(k2: Bar, k3: Bar) -> Bar
    ensures { result ≡ merged_up_bar k2 k3 }
{
    let high = arith::max(k2.high, k3.high);
    let low = arith::max(k2.low, k3.low);
    let time = if k3.high < k2.high { k2.time } else { k3.time };
    united(k2, k3, time, high, low)
}

// k2 and k3 after a higher bar: the smaller high and low, and k2's time only if its low is below k3's.
fn merged_down(k2: Bar, k3: Bar) -> Bar
    ensures { result ≡ merged_down_bar k2 k3 }
{
    let high = arith::min(k2.high, k3.high);
    let low = arith::min(k2.low, k3.low);
    let time = if k2.low < k3.low { k2.time } else { k3.time };
    united(k2, k3, time, high, low)
}

// k3 against k2, whose bar before has the high k1_high, without elements: the bar that they are merged into, and none where k3
// stands behind k2 as it is.
pub fn remove_include_bar(k1_high: f64, k2: Bar, k3: Bar) -> Option<Bar>
    ensures { in_place_of k2 result k3 ≡ remove_include_bar k1_high k2 k3 }
{
    if !contains(k2, k3) {
        return None;
    }
    if k1_high < k2.high {
        return Some(merged_up(k2, k3));
    }
    if k2.high < k1_high {
        return Some(merged_down(k2, k3));
    }
    None
}

// A raw bar as a merged bar of its own, with one element.
// Kept: a function and no `From<Bar>`, which would have the same body and the same two promises, and leave unsaid at a call that the bar is a raw one.
pub fn new_from_raw(b: Bar) -> NewBar
    ensures { (merged_of result ≡ own b) × (result.count ≡ 1) }
{
    NewBar {
        bar: b,
        count: 1,
        elements: [b.time; 101],
    }
}

// The bar `b` with k2's first 100 elements and then one of this time. A count past the 101 places counts as 101.
fn with_element(b: Bar, k2: NewBar, time: i64) -> NewBar
    ensures { (merged_of result ≡ with_element b (merged_of k2) time) × (result.count ≤ 101) }
{
    let mut elements = k2.elements;
    let kept = k2.count.min(100);
    elements[kept] = time;
    NewBar {
        bar: b,
        count: kept + 1,
        elements,
    }
}

// k3 against k2, whose bar before has the high k1_high: the bar that they are merged into, and none where k3 stands behind k2 as
// a merged bar of its own. The merged bar has at most 101 elements, whatever k2's count says.
pub fn remove_include(k1_high: f64, k2: NewBar, k3: Bar) -> Option<NewBar>
    ensures is { in_place_of (merged_of k2) (option_map merged_of result) (own k3) ≡ remove_include_after k1_high (merged_of k2) k3 }
    ensures fits { IfSome result (λ (k : NewBar). k.count ≤ 101) }
{
    let bar = remove_include_bar(k1_high, k2.bar, k3)?;
    Some(with_element(bar, k2, k3.time))
}
