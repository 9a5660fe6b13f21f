// The fractal in a row of the fractals' columns: its mark, and its middle bar.
ghost use Rattle.std.specs.Prelude.{◌≡◌, [], ◌<◌, length, get_or};
ghost use Rattle.strokes.specs.FractalRows.{row_mark};
ghost use Rattle.strokes.specs.Columns.{fractals_in};
ghost use Rattle.named.specs.Code.NamedRows.{middle_at};

use check_bi::Candle;
use machine::Mark;
use strokes::{FractalColumns, row_mark};

// The mark of the fractal in a row.
// Kept: functions and no methods, here and below, since FractalColumns is a type of strokes: there they would need definitions of named (middle_at),
// which lies above.
pub fn mark_at(fractals: FractalColumns<'_>, i: usize) -> Mark
    requires { i < length fractals.prices.now }
    ensures { result ≡ row_mark (get_or fractals.entry.prices.now i []) }
{
    row_mark(fractals.prices[i])
}

// The middle bar of the fractal in a row.
// Kept: its time by the number 1, and its high and low by 8 and 9: two patterns have twenty-four places for these three.
pub fn middle_at(fractals: FractalColumns<'_>, i: usize) -> Candle
    requires { (i < length fractals.stamps.now) × (i < length fractals.prices.now) }
    ensures { result ≡ middle_at (fractals_in fractals.entry) i }
{
    let row = fractals.prices[i];
    Candle {
        time: fractals.stamps[i][1],
        high: row[8],
        low: row[9],
    }
}
