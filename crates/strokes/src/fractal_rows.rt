// What the rows of a stroke's fractals show: a fractal's mark, the way of the stroke that starts on it, and which of them is the stroke's end.
ghost use Rattle.std.specs.Prelude.{◌≡◌, ◌-◌, ◌*◌, ◌/◌};
ghost use Rattle.machine.specs.Strokes.{direction_of};
ghost use Rattle.strokes.specs.FractalRows.{row_mark, stamps_of, prices_of};

use bars::Bar;
use check_bi::Candle;
use machine::{Direction, Mark};

// The mark that a fractal's row of prices shows: its bars' highs stand at 2, 8 and 14, their lows at 3,
// 9 and 15.
// Kept: by these numbers, since a pattern has eighteen places for these six; and with 0 for a candle's time, which a mark does not go by.
pub fn row_mark(p: [f64; 18]) -> Mark
    ensures { result ≡ row_mark p }
{
    let candle = |at: usize| Candle {
        time: 0,
        high: p[at],
        low: p[at + 1],
    };
    check_bi::fractal_mark(candle(2), candle(8), candle(14))
}

// The times of these three bars, then their ids: the row of a fractal's stamps.
#[tactic(auto, unfolding(crate::specs::FractalRows::stamps_of))]
pub fn stamps_of(a: Bar, b: Bar, c: Bar) -> [i64; 6]
    ensures { result ≡ stamps_of a b c }
{
    [
        a.time,
        b.time,
        c.time,
        i64::from(a.id),
        i64::from(b.id),
        i64::from(c.id),
    ]
}

// The prices of these three bars, one row behind the other.
#[tactic(auto, unfolding(crate::specs::FractalRows::prices_of, bars::specs::Bars::row_of))]
pub fn prices_of(a: Bar, b: Bar, c: Bar) -> [f64; 18]
    ensures { result ≡ prices_of a b c }
{
    [
        a.open, a.close, a.high, a.low, a.vol, a.amount, b.open, b.close, b.high, b.low, b.vol,
        b.amount, c.open, c.close, c.high, c.low, c.vol, c.amount,
    ]
}

// The way of a stroke that starts on a fractal of this mark.
pub fn direction_of(m: Mark) -> Direction
    ensures { result ≡ direction_of m }
{
    Direction::from(m)
}

// The way of a stroke that starts on the fractal of this row.
pub fn row_direction(p: [f64; 18]) -> Direction
    ensures { result ≡ direction_of (row_mark p) }
{
    direction_of(row_mark(p))
}

// Which of a stroke's m fractals is its end: the last, or the last but one where they are odd in number.
pub fn end_index(m: usize) -> usize
    ensures { result ≡ 2 * (m / 2) - 1 }
{
    (m / 2 * 2).saturating_sub(1)
}
