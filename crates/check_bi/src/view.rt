// The unfinished bars as they would be once a bar has come, where they lie.
ghost use Rattle.std.specs.Prelude.{◌≡◌, length};

// The bars of the store that stay, and behind them the bars of a tail: of each, the times and the rows of prices.
// Kept: that there are fewer than 2^32 is asked by the functions that count or search, and is no fact of a View, nor of a Scan: `len` and `candle` need
// no bound, and as a fact it would be asked of whoever makes a View.
#[derive(Clone, Copy, Drop)]
pub struct View<'a> {
    pub times: &'a [i64],
    pub prices: &'a [[f64; 6]],
    pub tail_times: &'a [i64],
    pub tail_prices: &'a [[f64; 6]],
    ghost even: { length prices.now ≡ length times.now },
    ghost tail_even: { length tail_prices.now ≡ length tail_times.now },
}
