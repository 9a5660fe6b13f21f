// The sums behind the measures of a stroke, in the order of operations that the Rust has.
//
// The values of a stroke lie spread over a store and are copied nowhere. So each sum is an
// accumulator by value: `new`, then `more` with each value in turn, then what is asked at the end.
// A whole number that the Rust turns into a float is counted up by 1.0 here, so that no cast can
// lose anything and no number of values is too large. The functions at the end run an accumulator
// over a slice.
ghost use Rattle.std.specs.Prelude.{◌≡◌, Float};
ghost use mathlib.Core.List.{foldl};
ghost use Rattle.arith.specs.Sums.{det_with, fit_of, change_of, quotient, sum_of, mean_of, slope_of, acceleration_of, snr_of, pairs};
ghost use Rattle.arith.specs.SlopeDivisor.{ExactDivisor};
ghost use Rattle.arith.specs.Code.Accumulators.{mean_start, mean_more, mean_end, slope_start, slope_more, slope_end, fit_start, fit_more, fit_end, snr_start, snr_more, snr_end};

use crate::order::abs;

// What takes in values one by one: `more` gives the sums with one value more.
pub trait Accumulator: Copy {
    ghost taking: { Self → Float → Self };

    fn more(self, y: f64) -> Self
        ensures { result ≡ taking self y };

    // `more` with each value of a slice in turn.
    final fn each(self, ys: &[f64]) -> Self
        ensures { result ≡ foldl taking self ys.now }
    {
        ys.iter().fold(self, |sums, y| sums.more(*y))
    }
}

// How many values, and their sum from the first term on.
#[derive(Clone, Copy)]
pub struct MeanSums {
    pub n: f64,
    pub sum: f64,
}

impl MeanSums {
    // -0.0 is where a sum from its first term starts: -0.0 + x is x, for x = 0.0 and -0.0 too.
    pub fn new() -> Self
        ensures { result ≡ mean_start }
    {
        MeanSums { n: 0.0, sum: -0.0 }
    }

    pub fn mean(self) -> f64
        ensures { result ≡ mean_end self }
    {
        self.sum / self.n
    }
}

impl Accumulator for MeanSums {
    ghost taking = { mean_more };

    fn more(self, y: f64) -> Self {
        MeanSums {
            n: self.n + 1.0,
            sum: self.sum + y,
        }
    }
}

// The sums of the slope: a second pass over the values, once their number and mean are known.
#[derive(Clone, Copy)]
pub struct SlopeSums {
    pub n: f64,
    pub xmean: f64,
    pub ymean: f64,
    pub numerator: f64,
    pub denominator: f64,
}

impl SlopeSums {
    pub fn new(s: MeanSums) -> Self
        ensures { result ≡ slope_start s }
    {
        SlopeSums {
            n: 0.0,
            xmean: (s.n - 1.0) / 2.0,
            ymean: s.sum / s.n,
            numerator: -0.0,
            denominator: -0.0,
        }
    }

    pub fn slope(self) -> f64
        ensures { result ≡ slope_end self }
    {
        if self.n < 2.0 {
            return 0.0;
        }
        ratio(self.numerator, self.denominator)
    }
}

impl Accumulator for SlopeSums {
    ghost taking = { slope_more };

    fn more(self, y: f64) -> Self {
        let dx = self.n - self.xmean;
        let dy = y - self.ymean;
        SlopeSums {
            n: self.n + 1.0,
            numerator: self.numerator + dx * dy,
            denominator: self.denominator + dx * dx,
            ..self
        }
    }
}

// The seven sums of the quadratic fit, and how many values: sum_1.
#[derive(Clone, Copy)]
pub struct FitSums {
    pub n: f64,
    pub x4: f64,
    pub x3: f64,
    pub x2: f64,
    pub x: f64,
    pub x2y: f64,
    pub xy: f64,
    pub y: f64,
}

impl FitSums {
    pub fn new() -> Self
        ensures { result ≡ fit_start }
    {
        FitSums {
            n: 0.0,
            x4: 0.0,
            x3: 0.0,
            x2: 0.0,
            x: 0.0,
            x2y: 0.0,
            xy: 0.0,
            y: 0.0,
        }
    }

    // The determinant of the normal equations by its first column.
    fn det_with(self, a: f64, b: f64, c: f64) -> f64
        ensures { result ≡ det_with a b c self }
    {
        a * (self.x2 * self.n - self.x * self.x) - b * (self.x3 * self.n - self.x * self.x2)
            + c * (self.x3 * self.x - self.x2 * self.x2)
    }

    // The coefficient of the square, by Cramer's rule.
    fn fit(self) -> f64
        ensures { result ≡ fit_of self }
    {
        let det = self.det_with(self.x4, self.x3, self.x2);
        if abs(det) < 1e-10 {
            return 0.0;
        }
        self.det_with(self.x2y, self.xy, self.y) / det
    }

    pub fn acceleration(self) -> f64
        ensures { result ≡ fit_end self }
    {
        if self.n < 3.0 {
            return 0.0;
        }
        self.fit()
    }
}

impl Accumulator for FitSums {
    ghost taking = { fit_more };

    fn more(self, y: f64) -> Self {
        let x = self.n;
        let x2 = x * x;
        let x3 = x2 * x;
        FitSums {
            n: x + 1.0,
            x4: self.x4 + x3 * x,
            x3: self.x3 + x3,
            x2: self.x2 + x2,
            x: self.x + x,
            x2y: self.x2y + x2 * y,
            xy: self.xy + x * y,
            y: self.y + y,
        }
    }
}

// What SNR asks of bars in turn: the sum of the changes, beside it of the only bar its open and close, of two and more the first
// open and the last close. The sum may begin at any number; `new` begins at zero.
// Kept: no Accumulator, since it takes two values, which lie in two slices: as one its `each` would go over a slice of pairs, which no caller has.
#[derive(Clone, Copy)]
pub enum SnrSums {
    NoBar { sum: f64 },
    OneBar { open: f64, close: f64, sum: f64 },
    Bars { first: f64, last: f64, sum: f64 },
}

impl SnrSums {
    pub fn new() -> Self
        ensures { result ≡ snr_start }
    {
        SnrSums::NoBar { sum: 0.0 }
    }

    pub fn more(self, open: f64, close: f64) -> Self
        ensures { result ≡ snr_more self («open», close) }
    {
        match self {
            SnrSums::NoBar { sum: before } => SnrSums::OneBar {
                open,
                close,
                sum: before + change(open, close),
            },
            SnrSums::OneBar {
                open: first,
                close: _,
                sum,
            } => SnrSums::Bars {
                first,
                last: close,
                sum: sum + change(open, close),
            },
            SnrSums::Bars {
                first,
                last: _,
                sum,
            } => SnrSums::Bars {
                first,
                last: close,
                sum: sum + change(open, close),
            },
        }
    }

    // `more` with each bar of two slices in turn, as far as the shorter one goes.
    pub fn each(self, opens: &[f64], closes: &[f64]) -> Self
        ensures { result ≡ foldl snr_more self (pairs opens.now closes.now) }
    {
        opens
            .iter()
            .zip(closes)
            .fold(self, |sums, (open, close)| sums.more(*open, *close))
    }

    pub fn snr(self) -> f64
        ensures { result ≡ snr_end self }
    {
        match self {
            SnrSums::NoBar { sum: _ } => 0.0,
            SnrSums::OneBar {
                open,
                close,
                sum: _,
            } => change(open, close),
            SnrSums::Bars { first, last, sum } => ratio(change(first, last), sum),
        }
    }
}

// |close - open|
fn change(open: f64, close: f64) -> f64
    ensures { result ≡ change_of («open», close) }
{
    abs(close - open)
}

// a / b, and 0.0 where b equals 0.0.
fn ratio(a: f64, b: f64) -> f64
    ensures { result ≡ quotient a b }
{
    if b == 0.0 {
        return 0.0;
    }
    a / b
}

// The sum from the first term on; -0.0 of no value.
pub fn sum(ys: &[f64]) -> f64
    ensures { result ≡ sum_of ys.now }
{
    MeanSums::new().each(ys).sum
}

// The sum over the number of values; NaN of no value.
pub fn mean(ys: &[f64]) -> f64
    ensures { result ≡ mean_of ys.now }
{
    MeanSums::new().each(ys).mean()
}

// The slope of the straight line through the values at 0, 1, 2 and so on; 0.0 below two values. From
// 2 to 65,536 values what it divides by has no error (ExactDivisor).
pub fn slope(ys: &[f64]) -> f64
    ensures { (result ≡ slope_of ys.now) × ExactDivisor }
{
    let s = MeanSums::new().each(ys);
    SlopeSums::new(s).each(ys).slope()
}

// The coefficient of the square in the parabola through the values; 0.0 below three values.
pub fn acceleration(ys: &[f64]) -> f64
    ensures { result ≡ acceleration_of ys.now }
{
    FitSums::new().each(ys).acceleration()
}

// The change over all bars against the sum of the changes of each; 0.0 of no bar.
pub fn snr(opens: &[f64], closes: &[f64]) -> f64
    ensures { result ≡ snr_of (pairs opens.now closes.now) }
{
    SnrSums::new().each(opens, closes).snr()
}
