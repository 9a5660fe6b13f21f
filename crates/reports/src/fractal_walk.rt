// The fractals of a run of bars one by one, as check_fxs takes them.
ghost use Rattle.std.specs.Prelude.{◌≡◌, ◌+◌};
ghost use Rattle.bars.specs.Bars.{Merged};
ghost use mathlib.Core.List.{List, ◌∷◌};
ghost use Rattle.stores.specs.Columns.{raw_in};
ghost use Rattle.stores.specs.Code.StoreRows.{RoomRaw};
ghost use Rattle.machine.specs.Fractals.{fxs_after};
ghost use Rattle.strokes.specs.Code.StrokeSteps.{plain_bar, last_mark, fractals_between};
ghost use Rattle.std.specs.Iterator.{YieldsFirstBy, item_count};
ghost use Rattle.reports.specs.Code.FractalWalk.{plain, from_place, left, window_gives, NextFractal};

use bars::Bar;
use check_bi::Candle;
use machine::Mark;
use stores::RawColumns;

// A fractal: its mark and its three bars.
#[derive(Clone, Copy)]
pub struct FractalBars {
    pub mark: Mark,
    pub left: Bar,
    pub mid: Bar,
    pub right: Bar,
}

// A fractal, and the place behind its first bar.
#[derive(Clone, Copy)]
struct PlacedFractal {
    behind: usize,
    fractal: FractalBars,
}

// The fractals of the bars before place `end` that are still to come: the place of the next window, and the mark of the last one taken, if one was.
#[derive(Clone, Copy)]
pub struct FractalWalk<'a> {
    bars: RawColumns<'a>,
    end: usize,
    next: usize,
    last: Option<Mark>,
}

// ---- one window

// The fractal of these bars, if it is taken.
fn fractal_after(last: Option<Mark>, a: Bar, b: Bar, c: Bar) -> Option<FractalBars>
    ensures { (l : List Merged) → fxs_after (last_mark last) (plain_bar a ∷ plain_bar b ∷ plain_bar c ∷ l) ≡ window_gives (last_mark last) result (λ p. fxs_after p (plain_bar b ∷ plain_bar c ∷ l)) }
{
    let mark = check_bi::mark_of(Candle::of(a), Candle::of(b), Candle::of(c))?;
    if last == Some(mark) {
        return None;
    }
    Some(FractalBars {
        mark,
        left: a,
        mid: b,
        right: c,
    })
}

// ---- window by window

// The first one that is taken of the windows from place `from` on.
// Kept: a loop, since find_map would hold these same lines in a closure, of which a contract had to say what the loop's invariant says.
fn next_fractal(
    bars: RawColumns<'_>,
    end: usize,
    from: usize,
    last: Option<Mark>,
) -> Option<PlacedFractal>
    requires { RoomRaw (raw_in bars) end }
    ensures { NextFractal (raw_in bars.entry) end (from_place (raw_in bars.entry) end (last_mark last) from) result }
{
    for at in from..end.saturating_sub(2) {
        let a = bars.bar(at);
        let b = bars.bar(at + 1);
        let c = bars.bar(at + 2);
        if let Some(fractal) = fractal_after(last, a, b, c) {
            return Some(PlacedFractal {
                behind: at + 1,
                fractal,
            });
        }
    }
    None
}

impl<'a> FractalWalk<'a> {
    // All those of the bars before place `end`.
    pub fn new(bars: RawColumns<'a>, end: usize) -> Self
        ensures bars { result.bars ≡ bars.entry }
        ensures end { result.end ≡ end }
        ensures left { left result ≡ fractals_between (raw_in bars.entry) 0 end }
    {
        FractalWalk {
            bars,
            end,
            next: 0,
            last: None,
        }
    }
}

impl<'a> Iterator for FractalWalk<'a> {
    type Item = FractalBars;

    ghost can_next = { λ s. RoomRaw (raw_in s.bars) s.end };

    ghost next_gives = { YieldsFirstBy plain left };

    ghost remaining = { item_count left };

    fn next(&mut self) -> Option<FractalBars> {
        let found = next_fractal(self.bars, self.end, self.next, self.last)?;
        self.next = found.behind;
        self.last = Some(found.fractal.mark);
        Some(found.fractal)
    }
}
