// Gaps between neighbouring raw bars, check_gap_info of the source, over the stored rows of prices: open, close, high, low,
// vol, amount. `places` is the number of places for ratios.
ghost use Rattle.std.specs.Prelude.{◌≡◌, ◌-◌};
ghost use Rattle.bars.specs.Refusals.{asked};
ghost use Rattle.bars.specs.Gaps.{ratio_of, ratio_by, gap_by, gap_of, gap_number, gap_values, gap_covered, gap_among, gap_columns, gaps_listed, list_gaps};

use crate::Question;

// The way that a gap goes.
// Kept: beside machine's Direction, since a gap's side is no stroke's direction, and document 01 names both.
#[derive(Clone, Copy, Debug, PartialEq, Eq)]
pub enum Side {
    Up,
    Down,
}

// A gap between two neighbours: its lower edge, its higher edge, the ratio, and whether a bar from the pair's second on covered
// it. The ratio divides by the lower edge: where that is zero or less there is none.
// Kept: `covered` is a yes or no that is answered: it chooses no step, and no value stands beside it that it tells of.
#[derive(Clone, Copy)]
pub struct Gap {
    pub side: Side,
    pub low: f64,
    pub high: f64,
    pub ratio: Option<f64>,
    pub covered: bool,
}

// How far `high` lies above `low`.
fn ratio(places: usize, high: f64, low: f64) -> f64
    ensures { result ≡ ratio_of places high low }
{
    arith::round_to_nth_digit(high / low - 1.0, places)
}

fn ratio_between(places: usize, low: f64, high: f64) -> Option<f64>
    ensures { result ≡ ratio_by places low high }
{
    if low <= 0.0 {
        return None;
    }
    Some(ratio(places, high, low))
}

// Kept: `covered` as a bool, since it is put into the gap and chooses no step.
fn gap_by(side: Side, places: usize, low: f64, high: f64, covered: bool) -> Gap
    ensures { result ≡ gap_by side places low high covered }
{
    Gap {
        side,
        low,
        high,
        ratio: ratio_between(places, low, high),
        covered,
    }
}

// The pair of rows a and b, and whether the bars from b on cover its gap: an up gap by a low below a's high, a down gap by a
// high above a's low.
fn gap_of(places: usize, a: [f64; 6], b: [f64; 6], from_b: &[[f64; 6]]) -> Option<Gap>
    ensures { result ≡ gap_of places a b from_b.now }
{
    let [_, _, high, low, _, _] = a;
    let [_, _, b_high, b_low, _, _] = b;
    if high < b_low {
        let covered = from_b.iter().any(|x| x[3] < high);
        return Some(gap_by(Side::Up, places, high, b_low, covered));
    }
    if b_high < low {
        let covered = from_b.iter().any(|x| low < x[2]);
        return Some(gap_by(Side::Down, places, b_high, low, covered));
    }
    None
}

// The pair of bars i and i + 1 of the first n, or question 13 where there is no such pair.
pub fn gap_among(
    places: usize,
    prices: &[[f64; 6]],
    n: usize,
    i: usize,
) -> Result<Option<Gap>, Question>
    ensures { result ≡ gap_among places prices.now n i }
{
    if prices.len() < n || pairs(n) <= i {
        return Err(Question::Exists);
    }
    Ok(gap_of(places, prices[i], prices[i + 1], &prices[i + 1..n]))
}

// Kept: a number for the kind of gap, since the column of kinds has numbers (docs/DECISIONS.md) and the definitions speak of these.
#[tactic(auto, unfolding(crate::specs::Gaps::gap_number, crate::specs::Gaps::side_number))]
fn gap_number(g: Option<Gap>) -> u64
    ensures { result ≡ gap_number g }
{
    let Some(gap) = g else {
        return 0;
    };
    match (gap.side, gap.ratio) {
        (Side::Up, Some(_)) => 1,
        (Side::Down, Some(_)) => 2,
        (Side::Up, None) => 3,
        (Side::Down, None) => 4,
    }
}

fn gap_values(g: Option<Gap>) -> [f64; 3]
    ensures { result ≡ gap_values g }
{
    match g {
        Some(gap) => [gap.low, gap.high, gap.ratio.unwrap_or(0.0)],
        None => [0.0; 3],
    }
}

#[tactic(auto, unfolding(crate::specs::Gaps::gap_covered))]
fn gap_covered(g: Option<Gap>) -> bool
    ensures { result ≡ gap_covered g }
{
    g.is_some_and(|gap| gap.covered)
}

// How many pairs n bars have.
pub fn pairs(n: usize) -> usize
    ensures { result ≡ n - 1 }
{
    n.saturating_sub(1)
}

// All pairs of the first n bars, oldest first, into lent columns: which kind of gap, its edges and ratio, whether it was covered.
// Refused by question 4 where there are no n bars, and by question 14 where a column has fewer places than there are pairs, and
// then nothing is written.
// Kept: three slices, as docs/STORES.md has them: this and check_gaps alone take them.
// Kept: by index, since a pair's gap is covered by any bar behind it, and three columns are written. Their shortest by `min`: no other function asks it.
pub fn list_gaps(
    places: usize,
    prices: &[[f64; 6]],
    n: usize,
    kinds: &mut [u64],
    values: &mut [[f64; 3]],
    covered: &mut [bool],
) -> Result<(), Question>
    ensures { gaps_listed (asked result) (gap_columns kinds.new values.new covered.new) ≡ list_gaps places prices.now n (gap_columns kinds.old values.old covered.old) }
{
    if prices.len() < n {
        return Err(Question::Sound);
    }
    let m = pairs(n);
    let room = kinds.len().min(values.len()).min(covered.len());
    if room < m {
        return Err(Question::OutputRoom);
    }
    for i in 0..m {
        let g = gap_of(places, prices[i], prices[i + 1], &prices[i + 1..n]);
        kinds[i] = gap_number(g);
        values[i] = gap_values(g);
        covered[i] = gap_covered(g);
    }
    Ok(())
}
