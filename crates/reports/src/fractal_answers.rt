// The three answers of a fractal. Elements are no part of any answer, so in contracts its bars have none (plain).
ghost use Rattle.std.specs.Prelude.{◌≡◌};
ghost use Rattle.strokes.specs.Code.StrokeSteps.{plain_bar};
ghost use Rattle.reports.specs.FractalAnswers.{closes_beyond, power_str, IsStrength, fractal_volume, has_zs, answers_of};
ghost use Rattle.reports.specs.Code.FractalWalk.{plain};

use super::fractal_walk::FractalBars;
use arith::{max, min};
use bars::Bar;
use machine::Mark;

// power_str of the source: how far the third bar closes back.
#[derive(Clone, Copy)]
pub enum Strength {
    Strong,
    Medium,
    Weak,
}

// power_str, power_volume and has_zs of the source.
#[derive(Clone, Copy)]
pub struct FractalAnswers {
    pub power_str: Strength,
    pub power_volume: f64,
    // Kept: a bool, since has_zs of the source answers yes or no, and no value stands beside it that an Option could hold.
    pub has_zs: bool,
}

impl FractalBars {
    // Whether the third bar closes beyond one of the first two: above its high after a bottom, under its low after a top.
    fn closes_beyond(self, b: Bar) -> bool
        ensures { result ≡ closes_beyond (plain self) (plain_bar b) }
    {
        let close = self.right.close;
        match self.mark {
            Mark::D => b.high < close,
            Mark::G => close < b.low,
        }
    }

    pub fn power_str(self) -> Strength
        ensures { (result ≡ power_str (plain self)) × IsStrength (plain self) result }
    {
        if self.closes_beyond(self.left) {
            return Strength::Strong;
        }
        if self.closes_beyond(self.mid) {
            return Strength::Medium;
        }
        Strength::Weak
    }

    // The vol of the three bars, added from the first.
    pub fn power_volume(self) -> f64
        ensures { result ≡ fractal_volume (plain self) }
    {
        self.left.vol + self.mid.vol + self.right.vol
    }

    // The greatest low is at most the least high: folds from the infinities, as the source has them.
    // Kept: three calls each, since a fold would first need an array of the three lows, and one of the three highs, to say the same.
    pub fn has_zs(self) -> bool
        ensures { result ≡ has_zs (plain self) }
    {
        let zd = max(
            max(max(f64::NEG_INFINITY, self.left.low), self.mid.low),
            self.right.low,
        );
        let zg = min(
            min(min(f64::INFINITY, self.left.high), self.mid.high),
            self.right.high,
        );
        zd <= zg
    }

    pub fn answers(self) -> FractalAnswers
        ensures { result ≡ answers_of (plain self) }
    {
        FractalAnswers {
            power_str: self.power_str(),
            power_volume: self.power_volume(),
            has_zs: self.has_zs(),
        }
    }
}
