// The larger, the smaller and the absolute value, as Rust's f64::max, f64::min and f64::abs have them.
ghost use Rattle.std.specs.Prelude.{◌≡◌};
ghost use Rattle.arith.specs.Order.{max_of, min_of, abs_of};

// Kept: the contracts of f64::max and f64::min leave open which of two equal ones they give, and max_of and min_of say that it is the first.

// The larger of the two. Where one is NaN, the other; of two equal ones, as the two zeros, the first.
pub fn max(x: f64, y: f64) -> f64
    ensures { result ≡ max_of x y }
{
    if x.is_nan() || x < y { y } else { x }
}

// The smaller of the two. Where one is NaN, the other; of two equal ones, as the two zeros, the first.
pub fn min(x: f64, y: f64) -> f64
    ensures { result ≡ min_of x y }
{
    if x.is_nan() || y < x { y } else { x }
}

// The sign cleared, on zeros and infinities too. NaN stays NaN.
// Kept: the library's contract speaks of its own definition; that abs_of is the same is proved here once, for all who call this.
pub fn abs(x: f64) -> f64
    ensures { result ≡ abs_of x }
{
    x.abs()
}
