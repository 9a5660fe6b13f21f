// The measures of a kept stroke that is named by its place.
ghost use Rattle.std.specs.Prelude.{◌≡◌, List};
ghost use Rattle.arith.specs.SlopeDivisor.{ExactDivisor};
ghost use Rattle.bars.specs.declared.Bar.{Bar as BarOf};
ghost use Rattle.strokes.specs.Columns.{stores_in};
ghost use Rattle.machine.specs.Strokes.{Stroke};
ghost use Rattle.reports.specs.Code.ElementPrices.{Shows};
ghost use Rattle.reports.specs.NamedStrokes.{measures_at};
ghost use Rattle.reports.specs.Code.MeasuredRows.{CanRead, ShownBy};

use super::first_questions::ask_stroke;
use super::measures::{MeasuredStroke, Measures, StrokeEnds};
use super::rows_shown::{end_at, inner_bars};
use bars::Question;
use named::StrokeRows;
use strokes::{Stand, StoreColumns};

// The stroke in these rows, over the first n raw bars.
fn stroke_in(rows: StrokeRows, stores: StoreColumns<'_>, n: usize) -> MeasuredStroke<'_>
    requires { CanRead rows n (stores_in stores) }
    ensures { (raw : List BarOf) (b : Stroke) → ShownBy raw b rows n (stores_in stores.entry) → Shows result raw b }
{
    let fp = stores.fractals.prices;
    let ends = StrokeEnds {
        start: end_at(fp, rows.first),
        end: end_at(fp, rows.end_row()),
    };
    MeasuredStroke {
        ends,
        bars: rows.bars,
        inner: inner_bars(rows, stores, n),
    }
}

// The measures of the stroke at a place, the oldest at 0. Questions 4 and 13. The slope's divisor has no
// error from 2 to 65,536 inner raw bars (ExactDivisor); beyond that it is what the float steps give.
pub fn measures_at(
    stand: Stand,
    stores: StoreColumns<'_>,
    place: usize,
) -> Result<Measures, Question>
    ensures { (result ≡ measures_at stand (stores_in stores.entry) place) × ExactDivisor }
{
    let rows = ask_stroke(stand, stores, place)?;
    let stroke = stroke_in(rows, stores, stand.raw);
    Ok(stroke.measures(stand.power_places, stand.ratio_places))
}
