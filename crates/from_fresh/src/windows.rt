// How many of the first windows of the unfinished bars hold no fractal, from feed to feed while no stroke is kept: a series that only rises is then not looked through from its beginning for every bar.
ghost use Rattle.std.specs.Prelude.{◌≡◌, ◌+◌, ◌-◌, ◌≤◌, ◌<◌, length};
ghost use Rattle.from_fresh.specs.Code.ClearWindows.{ClearAfter};

use strokes::Stand;

// How many strokes, raw and unfinished bars a stand holds: what is to be known of the one before a feed, which changes it.
#[derive(Clone, Copy)]
pub struct Counts {
    pub strokes: usize,
    pub raw: usize,
    pub unfinished: usize,
}

impl Counts {
    // Kept: three of a stand's numbers by name, and no conversion of it; From would be no shorter.
    pub fn of(stand: &Stand) -> Counts
        ensures { result ≡ record { strokes = stand.now.strokes; raw = stand.now.raw; unfinished = stand.now.unfinished } }
    {
        Counts {
            strokes: stand.strokes,
            raw: stand.raw,
            unfinished: stand.unfinished,
        }
    }
}

// How many of `clear` windows are known yet after a feed. The merged bars but the last stay as they are where the bar is later; one with the last time is merged anew, and then none is known.
fn known_after(before: Counts, after: Counts, clear: usize) -> usize
    requires { (before.raw < 4294967296) × (before.unfinished < 4294967296) × (after.unfinished < 4294967296) × (clear ≤ before.unfinished) }
    ensures { (0 < result → (0 < clear) × (after.raw ≡ before.raw + 1) × (result ≡ clear + after.unfinished - (before.unfinished + 1))) × (result ≤ after.unfinished) }
{
    if clear == 0 || after.raw != before.raw + 1 {
        return 0;
    }
    (clear + after.unfinished).saturating_sub(before.unfinished + 1)
}

// How many of the first windows of the unfinished bars, whose rows of prices are up, hold no fractal after a feed, if `clear` did before it: from those that are known yet on to the first fractal. With
// a stroke kept before the feed or made by it, nothing is looked at. Nothing need be known: 0 is always true.
pub fn clear_after(before: Counts, after: Counts, made: u64, up: &[[f64; 6]], clear: usize) -> usize
    requires { (before.raw < 4294967296) × (before.unfinished < 4294967296) × (after.unfinished < 4294967296) × (clear ≤ before.unfinished) × (after.unfinished ≤ length up.now) }
    ensures { ClearAfter up.now before.strokes made before.raw after.raw before.unfinished after.unfinished clear result }
{
    if before.strokes != 0 || made != 0 {
        return 0;
    }
    let known = known_after(before, after, clear);
    check_bi::next_row(&up[..after.unfinished], None, known)
}
