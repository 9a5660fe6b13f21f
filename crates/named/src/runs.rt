// A run of kept strokes that is named by its first place and its length.
ghost use Rattle.std.specs.Prelude.{◌≡◌, ◌+◌, leb, length};

use strokes::Stand;

// Question 13. The sum of first and count could be too large for a usize.
pub fn run_exists(stand: Stand, first: usize, count: usize) -> bool
    ensures { (result ≡ leb (first + count) stand.strokes) × (length stand.bars ≡ 65) × (length stand.fractals ≡ 65) }
{
    stand
        .strokes
        .checked_sub(count)
        .is_some_and(|rest| first <= rest)
}
