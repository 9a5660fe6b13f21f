// create_fake_bis of the source, one fake stroke at a time, since a stroke's fractals lie spread over a
// store.
ghost use Rattle.std.specs.Prelude.{◌≡◌};
ghost use Rattle.zones.specs.Code.FakeOfTwo.{fake_of_two, fake_count};

use crate::FakeStroke;
use check_bi::Candle;
use machine::Mark;
use strokes::{direction_of, end_index};

// How many fake strokes a list of n fractals has: an odd list loses its last, then each neighbouring
// pair.
pub fn fake_count(n: usize) -> usize
    ensures { result ≡ fake_count n }
{
    end_index(n)
}

// The fake stroke from a fractal of this mark to the next; of each, the middle bar. Its power has `places` places.
pub fn fake_stroke(places: usize, mark: Mark, first: Candle, second: Candle) -> FakeStroke
    ensures { result ≡ fake_of_two places mark first second }
{
    let (high, low) = match mark {
        Mark::D => (second.high, first.low),
        Mark::G => (first.high, second.low),
    };
    FakeStroke {
        direction: direction_of(mark),
        sdt: first.time,
        edt: second.time,
        high,
        low,
        power: arith::round_to_nth_digit(high - low, places),
    }
}
