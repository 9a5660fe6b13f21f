// What a numeral means: the float nearest it, and whole seconds.
ghost use Rattle.std.specs.Prelude.{◌≡◌, ◌≤◌, ◌<◌};
ghost use Rattle.csv_text.specs.Values.{nearest_of, seconds_by};
ghost use Rattle.csv_text.specs.Claims.{OneDivision};

use crate::numerals::Numeral;

// The float nearest the number: one division of two floats that are exact, so that it rounds once. The sign comes afterwards, and
// a zero has none.
// Kept: that the digits are few (below 10^15) is asked here and in seconds_of. A type of numerals that have few would be Numeral again, made of each of
// a record's seven.
pub fn value_of(n: Numeral) -> f64
    requires { (n.digits < 1000000000000000) × (n.places ≤ 22) }
    ensures { (result ≡ nearest_of n.minus n.digits n.places) × OneDivision }
{
    let x = n.digits as f64 / arith::power_of_ten(n.places);
    if n.minus && n.digits != 0 { -x } else { x }
}

pub fn seconds_of(n: Numeral) -> i64
    requires { n.digits < 1000000000000000 }
    ensures { result ≡ seconds_by n.minus n.digits }
{
    let seconds = n.digits as i64;
    if n.minus { -seconds } else { seconds }
}
