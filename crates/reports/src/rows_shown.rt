// What the rows of a stroke show: its merged bars between the first and the last, and of the fractal in a row what the measures ask of it, and
// its answers.
ghost use Rattle.std.specs.Prelude.{◌≡◌, ◌+◌, ◌<◌, ◌≤◌, [], pos, length, take, drop, get_or, T};
ghost use Rattle.stores.specs.Stores.{bar_of};
ghost use Rattle.stores.specs.Columns.{raw_in, merged_in};
ghost use Rattle.stores.specs.Code.StoreRows.{RoomRaw, rising};
ghost use Rattle.sound.specs.Code.SoundStand.{named_rows};
ghost use Rattle.named.specs.Code.NamedRows.{cut};
ghost use Rattle.strokes.specs.Columns.{stores_in};
ghost use Rattle.strokes.specs.StateRead.{row_fractal};
ghost use Rattle.reports.specs.Code.ElementPrices.{end_of};
ghost use Rattle.reports.specs.Code.MeasuredRows.{CanRead, first_raw, Between, InnerIs};
ghost use Rattle.reports.specs.FractalAnswers.{answers_of};

use super::fractal_answers::FractalAnswers;
use super::fractal_walk::FractalBars;
use super::inner_bars::{InnerBars, RawBars};
use super::measures::StrokeEnd;
use bars::Bar;
use named::StrokeRows;
use stores::{MergedColumns, RawColumns};
use strokes::{StoreColumns, row_mark};

// The first n raw bars.
fn first_bars(columns: RawColumns<'_>, n: usize) -> RawBars<'_>
    requires room { RoomRaw (raw_in columns) n }
    requires rise { T (rising (take n columns.times.now)) }
    ensures { raw_in result.columns ≡ first_raw n (raw_in columns.entry) }
{
    RawBars {
        columns: columns.part(0, n),
    }
}

// The merged bars in the rows from `first` on and before `last`.
fn bars_between<'a>(
    raw: RawBars<'a>,
    bars: MergedColumns<'a>,
    first: usize,
    last: usize,
) -> InnerBars<'a>
    requires rows { (first ≤ last) × (last ≤ length bars.prices.now) × (length bars.prices.now ≤ 65536) × (length bars.counts.now ≡ length bars.prices.now) × (length bars.elements.now ≡ length bars.prices.now) }
    requires named { T (named_rows raw.columns.times.now (cut first last bars.counts.now) (cut first last bars.elements.now)) }
    ensures { Between first last raw.entry (merged_in bars.entry) result }
{
    InnerBars {
        raw,
        prices: &bars.prices[first..last],
        counts: &bars.counts[first..last],
        elements: &bars.elements[first..last],
    }
}

// The merged bars in these rows but the first and the last, over the first n raw bars.
pub fn inner_bars(rows: StrokeRows, stores: StoreColumns<'_>, n: usize) -> InnerBars<'_>
    requires { CanRead rows n (stores_in stores) }
    ensures { InnerIs rows n (stores_in stores.entry) result }
{
    let raw = first_bars(stores.raw, n);
    let first = rows.first + 1;
    let last = rows.first + rows.bars - 1;
    bars_between(raw, stores.strokes, first, last)
}

// What the measures ask of the fractal in row i.
// Kept: the middle bar's high and low by their places in the row, 8 and 9: a pattern would be eighteen places long.
pub fn end_at(fp: &[[f64; 18]], i: usize) -> StrokeEnd
    requires { i < length fp.now }
    ensures { result ≡ end_of (row_fractal [] (get_or fp.now i [])) }
{
    let p = fp[i];
    let mark = row_mark(p);
    StrokeEnd {
        mark,
        high: p[8],
        low: p[9],
    }
}

// The bar whose row of prices begins at `at`, without time and id, which no answer of a fractal asks.
// Kept: a time and an id of 0 stand there, since the answers are methods of FractalBars, whose bars have both; a second type without them would need
// those methods once more.
// Kept: price by price, since Bar::of takes a row of six, and six of these eighteen are a slice and no such row.
fn row_bar(p: [f64; 18], at: usize) -> Bar
    requires { at ≤ 12 }
    ensures { result ≡ bar_of (pos 0) (pos 0) (take 6 (drop at p)) }
{
    Bar {
        time: 0,
        id: 0,
        open: p[at],
        close: p[at + 1],
        high: p[at + 2],
        low: p[at + 3],
        vol: p[at + 4],
        amount: p[at + 5],
    }
}

// The answers of the fractal in row i.
pub fn row_answers(fp: &[[f64; 18]], i: usize) -> FractalAnswers
    requires { i < length fp.now }
    ensures { result ≡ answers_of (row_fractal [] (get_or fp.now i [])) }
{
    let p = fp[i];
    let fractal = FractalBars {
        mark: row_mark(p),
        left: row_bar(p, 0),
        mid: row_bar(p, 6),
        right: row_bar(p, 12),
    };
    fractal.answers()
}
