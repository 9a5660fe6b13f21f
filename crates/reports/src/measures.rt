// The measures of a stroke.
ghost use Rattle.std.specs.Prelude.{◌≡◌, true, get_or, T, Float};
ghost use mathlib.Core.List.{List, map, foldl};
ghost use Rattle.std.specs.Float.{nan};
ghost use Rattle.bars.specs.Bars.{Merged};
ghost use Rattle.bars.specs.Lists.{every};
ghost use Rattle.sound.specs.Code.SoundStand.{is_time};
ghost use Rattle.machine.specs.Fractals.{Fractal, fx_of};
ghost use Rattle.machine.specs.Strokes.{Stroke};
ghost use Rattle.machine.specs.Break.{high_of, low_of};
ghost use Rattle.reports.specs.Measures.{power_price, volume_of, change as change_of, measures_of};
ghost use Rattle.reports.specs.Code.ElementPrices.{end_of, ends_of, prices_named, close_fits, taken, inner_start, inner_more, slope_with, Shows};
ghost use Rattle.bars.specs.declared.Bar.{Bar as BarOf};

use crate::inner_bars::{InnerBars, RawBars};
use arith::{Accumulator, FitSums, MeanSums, SlopeSums, SnrSums};
use machine::Mark;

// What bi.rs answers of a stroke. `length` is the number of its merged bars.
#[derive(Clone, Copy)]
pub struct Measures {
    pub high: f64,
    pub low: f64,
    pub power_price: f64,
    pub power_volume: f64,
    pub snr: f64,
    pub power_snr: f64,
    pub change: f64,
    pub slope: f64,
    pub acceleration: f64,
    pub length: usize,
}

// ---- of the end fractals

// All that the measures ask of one: its mark, and high and low of its middle bar.
#[derive(Clone, Copy)]
pub struct StrokeEnd {
    pub mark: Mark,
    pub high: f64,
    pub low: f64,
}

impl StrokeEnd {
    // fx: a top's high, a bottom's low.
    // Kept: check_bi's Fx has this match too, but also a place and a time, which a stroke's end has not; one function of a mark, a high and a low would be
    // called with three values where this match stands.
    fn fx(self) -> f64
        ensures { (f : Fractal) → end_of f ≡ self → result ≡ fx_of f }
    {
        match self.mark {
            Mark::D => self.low,
            Mark::G => self.high,
        }
    }
}

// The fractals on which a stroke begins and ends.
#[derive(Clone, Copy)]
pub struct StrokeEnds {
    pub start: StrokeEnd,
    pub end: StrokeEnd,
}

impl StrokeEnds {
    // get_high of the source.
    fn high(self) -> f64
        ensures { (b : Stroke) → ends_of b ≡ self → result ≡ high_of b }
    {
        arith::max(self.start.high, self.end.high)
    }

    // get_low of the source.
    fn low(self) -> f64
        ensures { (b : Stroke) → ends_of b ≡ self → result ≡ low_of b }
    {
        arith::min(self.start.low, self.end.low)
    }

    // get_power_price of the source.
    fn power_price(self, places: usize) -> f64
        ensures { (b : Stroke) → ends_of b ≡ self → result ≡ power_price places b }
    {
        arith::round_to_nth_digit(arith::abs(self.end.fx() - self.start.fx()), places)
    }

    // get_change of the source.
    fn change(self, places: usize) -> f64
        ensures { (b : Stroke) → ends_of b ≡ self → result ≡ change_of places b }
    {
        let s = self.start.fx();
        let e = self.end.fx();
        if s == 0.0 {
            return 0.0;
        }
        arith::round_to_nth_digit((e - s) / s, places)
    }
}

// ---- of the raw bars that the elements of the inner merged bars name. They are read where they stand: each element is looked up
// among the raw times.

// Sums that take in raw bars one by one, of each its open and its close.
trait PriceSums: Copy {
    ghost taking: { Self → Float × Float → Self };

    fn with(self, open: f64, close: f64) -> Self
        ensures { result ≡ taking self («open», close) };
}

// The sums of the first pass.
#[derive(Clone, Copy)]
struct InnerSums {
    mean: MeanSums,
    fit: FitSums,
    snr: SnrSums,
}

impl InnerSums {
    fn new() -> Self
        ensures { result ≡ inner_start }
    {
        InnerSums {
            mean: MeanSums::new(),
            fit: FitSums::new(),
            snr: SnrSums::new(),
        }
    }
}

impl PriceSums for InnerSums {
    ghost taking = { inner_more };

    fn with(self, open: f64, close: f64) -> Self {
        InnerSums {
            mean: self.mean.more(close),
            fit: self.fit.more(close),
            snr: self.snr.more(open, close),
        }
    }
}

// The slope needs a second pass, over the closes.
impl PriceSums for SlopeSums {
    ghost taking = { slope_with };

    fn with(self, _open: f64, close: f64) -> Self {
        self.more(close)
    }
}

// The sums with the raw bars of these times. The contract adds that each close is a value of f64.
fn with_named<S: PriceSums>(mut sums: S, raw: RawBars<'_>, times: &[i64]) -> S
    requires { T (every (is_time raw.columns.times.now) times.now) }
    ensures { (result, true) ≡ foldl (taken S.taking raw.entry) (sums, true) times.now }
{
    for time in times {
        let (open, close) = raw.open_and_close(*time);
        sums = sums.with(open, close);
    }
    sums
}

impl<'a> InnerBars<'a> {
    // The sums with the raw bars that the elements name.
    // Kept: by place, see InnerBars::elements_at.
    fn add_to<S: PriceSums>(self, mut sums: S) -> S
        ensures value { result ≡ foldl S.taking sums (prices_named self.entry) }
        ensures fits { T (every close_fits (prices_named self.entry)) }
    {
        for i in 0..self.counts.len() {
            sums = with_named(sums, self.raw, self.elements_at(i));
        }
        sums
    }

    // The vol of the merged bars, added from the first; 0.0 where there are none.
    // Kept: a row's vol by its place, 4 (open, close, high, low, vol, amount): `[_, _, _, _, vol, _]` is no plainer, since the reader has to count the places
    // there as well.
    fn volume(self) -> f64
        ensures { (l : List Merged) → map (λ k. k.bar.vol) l ≡ map (λ p. get_or p 4 nan) self.entry.prices.now → result ≡ volume_of l }
    {
        let Some((first, rest)) = self.prices.split_first() else {
            return 0.0;
        };
        rest.iter().fold(first[4], |sum, row| sum + row[4])
    }
}

// ---- all of them

// A stroke as the measures read it: its ends, how many merged bars it has, and those between the first and the last.
#[derive(Clone, Copy, Drop)]
pub struct MeasuredStroke<'a> {
    pub ends: StrokeEnds,
    pub bars: usize,
    pub inner: InnerBars<'a>,
}

impl<'a> MeasuredStroke<'a> {
    // For the stroke b over the raw bars `raw`, which it shows. `power` and `ratio` are the places for power and for ratios; SNR is
    // not rounded.
    pub fn measures(self, power: usize, ratio: usize) -> Measures
        ensures { (raw : List BarOf) (b : Stroke) → Shows self.entry raw b → result ≡ measures_of power ratio raw b }
    {
        let sums = self.inner.add_to(InnerSums::new());
        let slopes = self.inner.add_to(SlopeSums::new(sums.mean));
        let snr = sums.snr.snr();
        Measures {
            high: self.ends.high(),
            low: self.ends.low(),
            power_price: self.ends.power_price(power),
            power_volume: self.inner.volume(),
            snr,
            power_snr: arith::round_to_nth_digit(snr, ratio),
            change: self.ends.change(ratio),
            slope: slopes.slope(),
            acceleration: sums.fit.acceleration(),
            length: self.bars,
        }
    }
}
