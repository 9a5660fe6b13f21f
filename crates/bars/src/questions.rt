// Questions 5 to 9 of document 01, question 6 with prices at and below zero, asked of a bar that is fed. Each is answered for every bar there is, with NaN,
// infinities and minus zero among its floats.
ghost use Rattle.std.specs.Prelude.{◌≡◌, ◌&&◌};
ghost use Rattle.std.proofs.Math.Option.{none};
ghost use Rattle.bars.specs.Questions.{question5, question6, question7, question8, is_plain_zero, in_price_range, is_price, from_zero, is_volume, first_failed, first_failed_after};
ghost use Rattle.bars.specs.Refusals.{asked};

use crate::{Bar, Question};

// The first and the last second of question 5, -2^40 and 2^40.
pub const FIRST_TIME: i64 = -1099511627776;

pub const LAST_TIME: i64 = 1099511627776;

// The least and the most that a price above zero is, 2^-20 and 2^30.
pub const LEAST_PRICE: f64 = 0.00000095367431640625;

pub const MOST_PRICE: f64 = 1073741824.0;

// Question 5: time from -2^40 to 2^40?
pub fn time_in_range(b: Bar) -> bool
    ensures { result ≡ question5 b }
{
    (FIRST_TIME..=LAST_TIME).contains(&b.time)
}

// Zero or more, and no minus zero. The sign is the highest of a float's 64 bits, so the bits of a float without a minus
// sign, read as a number, are below 2^63.
pub fn from_zero(x: f64) -> bool
    ensures { result ≡ from_zero x }
{
    0.0 <= x && f64::to_bits(x) < 9223372036854775808
}

// Zero, and no minus zero.
fn is_plain_zero(x: f64) -> bool
    ensures { result ≡ is_plain_zero x }
{
    (x == 0.0) & from_zero(x)
}

// From 2^-20 to 2^30.
// Kept: by two tests and no branch, since `contains` tests one after the other. The bar is the older form's own, these two comparisons: 5.8 ns for a row of
// four prices, each tried by is_price, where `contains` takes 8.9; question 4 tries each row of prices that are not all above zero.
fn in_price_range(x: f64) -> bool
    ensures { result ≡ in_price_range x }
{
    (LEAST_PRICE <= x) & (x <= MOST_PRICE)
}

// A price: plain zero, or of size 2^-20 to 2^30.
pub fn is_price(x: f64) -> bool
    ensures { result ≡ is_price x }
{
    is_plain_zero(x) || in_price_range(arith::abs(x))
}

// All four prices from 2^-20 to 2^30, as flags.
// Kept: price by price, here and in prices_in_range, since `all` over an array of the four is no shorter and goes by a branch for each.
fn above_zero(b: Bar) -> bool
    ensures { result ≡ ((in_price_range b.«open» && in_price_range b.close) && (in_price_range b.high && in_price_range b.low)) }
{
    (in_price_range(b.open) & in_price_range(b.close))
        & (in_price_range(b.high) & in_price_range(b.low))
}

// Question 6: is each of the four prices zero or of size 2^-20 to 2^30, minus zero barred? Most bars lie above zero, so this is
// asked first, and price by price only where it fails.
pub fn prices_in_range(b: Bar) -> bool
    ensures { result ≡ question6 b }
{
    above_zero(b) || ((is_price(b.open) & is_price(b.close)) & (is_price(b.high) & is_price(b.low)))
}

// A volume or an amount from 0 to 2^50.
pub fn is_volume(x: f64) -> bool
    ensures { result ≡ is_volume x }
{
    from_zero(x) & (x <= 1125899906842624.0)
}

// Question 7: vol and amount from 0 to 2^50, minus zero barred?
#[tactic(auto, unfolding(crate::specs::Questions::question7))]
pub fn volumes_in_range(b: Bar) -> bool
    ensures { result ≡ question7 b }
{
    is_volume(b.vol) && is_volume(b.amount)
}

// Question 8: low at most high?
#[tactic(auto, unfolding(crate::specs::Questions::question8))]
pub fn low_at_most_high(b: Bar) -> bool
    ensures { result ≡ question8 b }
{
    b.low <= b.high
}

// Questions 5 to 8, of the bar alone: refused by the first that it fails.
pub fn question_of_bar(b: Bar) -> Result<(), Question>
    ensures { asked result ≡ first_failed none b }
{
    if !time_in_range(b) {
        return Err(Question::Time);
    }
    if !prices_in_range(b) {
        return Err(Question::Prices);
    }
    if !volumes_in_range(b) {
        return Err(Question::Volumes);
    }
    if !low_at_most_high(b) {
        return Err(Question::LowAtMostHigh);
    }
    Ok(())
}

// Questions 5 to 9: refused by the first that the bar fails. `last` is the time of the bar that was accepted before, if one was.
pub fn question_after(last: Option<i64>, b: Bar) -> Result<(), Question>
    ensures { asked result ≡ first_failed_after last b }
{
    question_of_bar(b)?;
    match last {
        Some(t) if b.time < t => Err(Question::NotEarlier),
        _ => Ok(()),
    }
}
