// A stand packed in lent rows of numbers, for those who keep stands between two calls. `numbers` has one row: minimum, most, the three rooms, the numbers of
// raw bars, of unfinished bars and of strokes, and the places for power and for ratios. `counts` has two: the strokes' numbers of bars and of fractals. Rows behind these stay as they are.
// Kept: functions and no conversions, since a stand lies in two slices that a caller lends, and packing leaves their other rows.
ghost use Rattle.std.specs.Prelude.{◌≡◌, ◌≤◌, length};
ghost use Rattle.strokes.specs.Packed.{packed, numbers_with, counts_with, rows_there};

use crate::{Rooms, Stand};

// Whether so many rows of numbers and of counts hold a stand.
pub fn rows_there(numbers: &[[usize; 10]], counts: &[[u32; 65]]) -> bool
    ensures { result ≡ rows_there numbers.now counts.now }
{
    !numbers.is_empty() && 2 <= counts.len()
}

pub fn unpack(numbers: &[[usize; 10]], counts: &[[u32; 65]]) -> Stand
    requires { (1 ≤ length numbers.now) × (2 ≤ length counts.now) }
    ensures { result ≡ packed numbers.now counts.now }
{
    let [
        minimum,
        most,
        raw_room,
        unfinished_room,
        stroke_room,
        raw,
        unfinished,
        strokes,
        power_places,
        ratio_places,
    ] = numbers[0];
    Stand {
        minimum,
        most,
        rooms: Rooms {
            raw: raw_room,
            unfinished: unfinished_room,
            strokes: stroke_room,
        },
        raw,
        unfinished,
        strokes,
        bars: counts[0],
        fractals: counts[1],
        power_places,
        ratio_places,
    }
}

pub fn pack(stand: Stand, numbers: &mut [[usize; 10]], counts: &mut [[u32; 65]])
    requires { (1 ≤ length numbers.old) × (2 ≤ length counts.old) }
    ensures { (numbers.new ≡ numbers_with stand numbers.old) × (counts.new ≡ counts_with stand counts.old) }
{
    let bars = stand.bars;
    let fractals = stand.fractals;
    numbers[0] = [
        stand.minimum,
        stand.most,
        stand.rooms.raw,
        stand.rooms.unfinished,
        stand.rooms.strokes,
        stand.raw,
        stand.unfinished,
        stand.strokes,
        stand.power_places,
        stand.ratio_places,
    ];
    counts[0] = bars;
    counts[1] = fractals;
}
