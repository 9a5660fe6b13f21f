// Whole rounding, which is Rust's f64::round, and rounding to a number of decimal places.
// Whole rounding is the roundToIntegralTiesToAway of IEEE 754-2019, clause 5.9, in the rounding direction
// of clause 4.3.1. Its four parts stand in the order in which they are read beside the standard.
ghost use Rattle.std.specs.Prelude.{◌≡◌, ◌^◌, ◌≤◌, false, T, pos};
ghost use Rattle.std.specs.Float.Ieee as Ieee;
ghost use Rattle.std.specs.Float.{fin, binary64};
ghost use Rattle.std.specs.Float.Ieee.{lt};
ghost use Rattle.std.specs.Float.Ieee.Positive.{positive, num, den};
ghost use Rattle.arith.specs.Rounding.{half_up, round_away, round_to};
ghost use Rattle.arith.specs.RoundingParts.{IsNotFinite, FallsTo, ToNearest, TiesToAway, FourParts};
ghost use Rattle.arith.specs.RoundingPlaces.{SevenPlaces};
ghost use Rattle.arith.specs.Code.RoundingTests.{IsFraction};
ghost use Rattle.arith.specs.declared.rounding.Part.TheVariants.{Whole, Nearest, Tie};

// Kept: f64::round answers the same. But by a rule of this project (docs/DECISIONS.md) rounding is read beside the standard part by part, and that claim
// (FourParts) is promised by part_of.

// The part that an operand falls to. Every float falls to exactly one.
#[derive(Clone, Copy)]
enum Part {
    NotFinite,
    Whole,
    Nearest,
    Tie,
}

// What the size of x has behind the point, exactly.
fn fraction(x: f64) -> f64
    ensures { IsFraction x result }
{
    x.abs().fract()
}

// Which part x falls to, asked in their order.
fn part_of(x: f64) -> Part
    ensures { FallsTo x result × FourParts }
{
    if !x.is_finite() {
        return Part::NotFinite;
    }
    let f = fraction(x);
    if f == 0.0 {
        return Part::Whole;
    }
    if f != 0.5 {
        return Part::Nearest;
    }
    Part::Tie
}

// `a` to the nearest whole number, halves up, for a above 0 and below 2^52: floor(2a) + 1, halved.
// No half is added: that sum would carry 0.49999999999999994 up to 1.
fn half_up(a: f64) -> f64
    requires fact_1 { T (positive a) }
    requires fact_2 { T (lt a (fin false 1 (pos 52))) }
    ensures { result ≡ Ieee.round binary64 false (half_up (num a) (den a)) 1 }
{
    let d = std::num::truncating_f64_to_u64(a + a);
    let h = (d + 1) / 2;
    h as f64
}

// 1. NaN and infinities. By clause 5.9 an infinite operand gives the infinity of its sign. A NaN gives a
// NaN, as it does in every operation (clause 6.2).
fn not_finite(x: f64) -> f64
    requires { IsNotFinite x }
    ensures { result ≡ x }
{
    x
}

// 2. Whole operands: both zeros and every finite float from 2^52 up are among them. Clause 5.9 chooses
// among the format's whole numbers, and clause 4.3 changes nothing that fits, so the operand stays; a zero
// keeps its sign by clause 5.9.
fn whole(x: f64) -> f64
    requires { FallsTo x Whole }
    ensures { result ≡ x }
{
    x
}

// 3. The nearest whole number, which clause 5.9 takes by the rule of clause 4.3.1: it is less than one half
// away, so no other is as near. By clause 4.3 its sign is the operand's, also where it is zero.
fn nearest(x: f64) -> f64
    requires { FallsTo x Nearest }
    ensures { ToNearest x result }
{
    half_up(x.abs()).copysign(x)
}

// 4. Ties: two whole numbers are one half away. Clause 4.3.1, roundTiesToAway, gives the one of larger
// magnitude, and clause 4.3 the operand's sign.
fn tie(x: f64) -> f64
    requires { FallsTo x Tie }
    ensures { TiesToAway x result }
{
    (x.abs() + 0.5).copysign(x)
}

// The nearest whole number, halves away from zero, the sign kept on zero.
pub fn round(x: f64) -> f64
    ensures { result ≡ round_away x }
{
    match part_of(x) {
        Part::NotFinite => not_finite(x),
        Part::Whole => whole(x),
        Part::Nearest => nearest(x),
        Part::Tie => tie(x),
    }
}

const POWERS_OF_TEN: [f64; 23] = [
    1.0,
    10.0,
    100.0,
    1000.0,
    10000.0,
    100000.0,
    1000000.0,
    10000000.0,
    100000000.0,
    1000000000.0,
    10000000000.0,
    100000000000.0,
    1000000000000.0,
    10000000000000.0,
    100000000000000.0,
    1000000000000000.0,
    10000000000000000.0,
    100000000000000000.0,
    1000000000000000000.0,
    10000000000000000000.0,
    100000000000000000000.0,
    1000000000000000000000.0,
    10000000000000000000000.0,
];

// 10 to the power k, exactly: the largest is 10^22.
pub fn power_of_ten(k: usize) -> f64
    requires { k ≤ 22 }
    ensures { result ≡ Ieee.of_int binary64 (pos (10 ^ k)) }
{
    POWERS_OF_TEN[k]
}

// `v` to `nth` decimal places, at most 6. What the three operations come to is the same for all seven numbers of places.
pub fn round_to_nth_digit(v: f64, nth: usize) -> f64
    ensures { (result ≡ round_to nth v) × SevenPlaces }
{
    let scale = power_of_ten(nth.min(6));
    round(v * scale) / scale
}
