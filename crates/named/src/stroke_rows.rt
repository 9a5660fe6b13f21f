// A kept stroke that is named by its place: where its rows stand in the stroke store.
ghost use Rattle.std.specs.Prelude.{◌≡◌, ◌+◌, ◌<◌, length, take};
ghost use Rattle.strokes.specs.StateRead.{total};
ghost use Rattle.named.specs.Code.NamedRows.{rows_of, end_row};

use strokes::Stand;

// The place of its first row, and how many bars and fractals it has.
#[derive(Clone, Copy)]
pub struct StrokeRows {
    pub first: usize,
    pub bars: usize,
    pub fractals: usize,
}

// How many strokes are kept. The contract adds the lengths of the stand's lists of counts.
// Kept: this function, and the lengths in the contracts, here, in run_exists and below, since a public function goes on promising what it promised.
pub fn kept(stand: Stand) -> usize
    ensures { (result ≡ stand.strokes) × (length stand.bars ≡ 65) × (length stand.fractals ≡ 65) }
{
    stand.strokes
}

impl StrokeRows {
    // The rows of the kept stroke at a place, the oldest at 0.
    pub fn of(stand: Stand, place: usize) -> StrokeRows
        requires fact_1 { place < 65 }
        requires fact_2 { total (take place stand.bars) < 9223372036854775808 }
        ensures { (result ≡ rows_of stand place) × (length stand.bars ≡ 65) × (length stand.fractals ≡ 65) }
    {
        StrokeRows {
            first: strokes::total_bars(stand.bars, place),
            bars: stand.bars[place] as usize,
            fractals: stand.fractals[place] as usize,
        }
    }

    // The row of its end.
    pub fn end_row(self) -> usize
        requires { self.first + self.fractals < 9223372036854775808 }
        ensures { result ≡ end_row self }
    {
        self.first + strokes::end_index(self.fractals)
    }
}
