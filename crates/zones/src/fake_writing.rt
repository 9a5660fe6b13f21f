// create_fake_bis of a kept stroke, written to lent columns.
ghost use Rattle.std.specs.Prelude.{◌≡◌, ◌+◌, ◌<◌};
ghost use Rattle.bars.specs.Refusals.{asked};
ghost use Rattle.strokes.specs.Columns.{fractals_in, stores_in};
ghost use Rattle.strokes.specs.Code.StrokeSteps.{RoomFractals};
ghost use Rattle.zones.specs.Columns.{fakes_of, SameRows, RoomRows};
ghost use Rattle.zones.specs.ListedFakes.{fakes_fit, fakes_if, fakes_call, counted, listed_fakes};
ghost use Rattle.zones.specs.Code.FakeOfTwo.{fake_count};
ghost use Rattle.zones.specs.Code.StrokesRead.{items_from, StrokeStands};
ghost use Rattle.zones.specs.FakeRows.{put_fakes};
ghost use Rattle.zones.specs.Code.FakeSteps.{fake_at, read_fakes};

use super::fake_strokes::{fake_count, fake_stroke};
use super::kept_run::Run;
use crate::{FakeColumnsMut, FakeStroke};
use bars::Question;
use named::{mark_at, middle_at};
use strokes::{FractalColumns, Stand, StoreColumns, total_bars};

// The fake stroke from the fractal in row p to the next, its power to `places` places.
fn fake_at(places: usize, fractals: FractalColumns<'_>, p: usize) -> FakeStroke
    requires { RoomFractals (fractals_in fractals) (p + 2) }
    ensures { result ≡ fake_at places (fractals_in fractals.entry) p }
{
    fake_stroke(
        places,
        mark_at(fractals, p),
        middle_at(fractals, p),
        middle_at(fractals, p + 1),
    )
}

// The n fake strokes from row p on.
// Kept: by place, since each is read off two neighbouring rows of two columns: windows of both would have to be zipped, and rows be read one by one.
fn write_fakes(
    places: usize,
    fractals: FractalColumns<'_>,
    p: usize,
    n: usize,
    to: &mut FakeColumnsMut<'_>,
)
    requires fact_1 { RoomFractals (fractals_in fractals) (p + n + 1) }
    requires fact_2 { RoomRows to.old n }
    ensures written { fakes_of to.new ≡ put_fakes (fakes_of to.old) (items_from (fake_at places (fractals_in fractals.entry)) p n) }
    ensures same { SameRows to.old to.new }
{
    for j in 0..n {
        let k = fake_at(places, fractals, p + j);
        to.put(
            j,
            [k.sdt, k.edt],
            [k.high, k.low, k.power],
            k.direction as u8,
        );
    }
}

// Question 14, then the fake strokes of the kept stroke at place i: how many there are.
fn list_fakes(
    stand: Stand,
    fractals: FractalColumns<'_>,
    i: usize,
    to: &mut FakeColumnsMut<'_>,
) -> Result<usize, Question>
    requires { StrokeStands stand (fractals_in fractals) i }
    ensures listed { fakes_call (asked result) (counted result) (fakes_of to.new) ≡ fakes_if (fakes_fit (fakes_of to.old) (read_fakes stand (fractals_in fractals.entry) i)) (fakes_of to.old) (read_fakes stand (fractals_in fractals.entry) i) }
    ensures same { SameRows to.old to.new }
{
    let n = fake_count(stand.fractals[i] as usize);
    if !to.fits(n) {
        return Err(Question::OutputRoom);
    }
    // Kept: `total_bars`, as in summary_at (reading).
    let place = total_bars(stand.bars, i);
    write_fakes(stand.power_places, fractals, place, n, to);
    Ok(n)
}

// create_fake_bis of the kept stroke at a place: how many fake strokes are listed.
pub fn create_fake_bis(
    stand: Stand,
    stores: StoreColumns<'_>,
    place: usize,
    to: &mut FakeColumnsMut<'_>,
) -> Result<usize, Question>
    ensures listed { fakes_call (asked result) (counted result) (fakes_of to.new) ≡ listed_fakes stand (stores_in stores.entry) place (fakes_of to.old) }
    ensures same { SameRows to.old to.new }
{
    Run::ask(stand, stores, place, 1)?;
    list_fakes(stand, stores.fractals, place, to)
}
