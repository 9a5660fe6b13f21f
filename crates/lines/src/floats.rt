// Floats as the 16 lower-case hexadecimal digits of their bits.
ghost use Rattle.std.specs.Prelude.{◌≡◌, IfSome, length};
ghost use Rattle.std.specs.Float.{binary64};
ghost use Rattle.std.specs.Float.Ieee.{of_bits};

use std::fmt;

// The float of a bit pattern: f64::from_bits, which is defined only off a NaN's pattern, and a NaN
// of every pattern above the infinities'.
pub fn float_of(bits: u64) -> f64
    ensures { result ≡ of_bits binary64 bits }
{
    if 9218868437227405312 < bits % 9223372036854775808 {
        return f64::NAN;
    }
    f64::from_bits(bits)
}

// The float whose digits are all of `word`.
pub fn float(word: &str) -> Option<f64>
    ensures { IfSome result (λ x. length word.now ≡ 16) }
{
    let digits = word.as_bytes();
    // Kept: a fold without an exit, where `any` would stop at the first: it is compiled to a few steps for all 16.
    if digits
        .iter()
        .fold(false, |upper, b| upper | b.is_ascii_uppercase())
    {
        return None;
    }
    let mut bits = [0u8; 8];
    hex::decode_to_slice(digits, &mut bits).ok()?;
    Some(float_of(u64::from_be_bytes(bits)))
}

// A float as it is written: its digits, and `nan` of every NaN.
#[derive(Clone, Copy)]
pub struct Digits(pub f64);

impl fmt::Display for Digits {
    fn fmt<W: fmt::Write>(&self, f: &mut fmt::Formatter<W>) -> fmt::Result {
        if self.0.is_nan() {
            return f.write_str("nan");
        }
        write!(f, "{:016x}", self.0.to_bits())
    }
}

// Floats as they are written, a space before each.
#[derive(Clone, Copy)]
pub struct Spaced<'a>(pub &'a [f64]);

impl<'a> fmt::Display for Spaced<'a> {
    fn fmt<W: fmt::Write>(&self, f: &mut fmt::Formatter<W>) -> fmt::Result {
        for x in self.0 {
            write!(f, " {}", Digits(*x))?;
        }
        Ok(())
    }
}
