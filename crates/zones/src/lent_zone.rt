// Zones built over a lent run of strokes, one step a stroke.
ghost use Rattle.std.specs.Prelude.{◌≡◌, ◌+◌, ◌<◌, ◌≤◌, length, take};
ghost use Rattle.zones.specs.Zones.{no_stroke};
ghost use Rattle.zones.specs.Code.ZoneSteps.{no_zone, next_of, states_of};

use crate::{GrowingZone, Summary};
use machine::Direction;

// The zone under construction, how many strokes it has, and how many zones are done before it.
#[derive(Clone, Copy)]
pub struct Building {
    pub zone: GrowingZone,
    pub size: usize,
    pub done: usize,
}

// What stands at a place that has no stroke.
pub fn no_stroke() -> Summary
    ensures { result ≡ no_stroke }
{
    Summary {
        direction: Direction::Up,
        high: f64::NEG_INFINITY,
        low: f64::INFINITY,
        began: 0,
        ended: 0,
    }
}

impl Building {
    // The first zone of a run, with its first stroke.
    fn start(s: Summary) -> Self
        ensures { result ≡ next_of no_zone s }
    {
        Building {
            zone: GrowingZone::start(s),
            size: 1,
            done: 0,
        }
    }

    // With one stroke more: it opens the next zone, or joins.
    fn next(self, s: Summary) -> Self
        requires some { 0 < self.size }
        requires few { self.size + self.done < 65536 }
        ensures { result ≡ next_of self s }
    {
        if self.zone.opens(s) {
            return Building {
                zone: GrowingZone::start(s),
                size: 1,
                done: self.done + 1,
            };
        }
        Building {
            zone: self.zone.joined(s),
            size: self.size + 1,
            ..self
        }
    }
}

// For each stroke of the run the zone that it is in, as it stands with that stroke. So the last of
// those that have the same number done before them is a zone of the run.
// Kept: an array of as many as a run can have strokes, since there is no heap here. How many are in use the caller knows: as many as the run has.
pub fn zones_of_run(run: &[Summary]) -> [Building; 64]
    requires { length run.now ≤ 64 }
    ensures { take (length run.now) result ≡ states_of no_zone run.now }
{
    let Some((first, rest)) = run.split_first() else {
        return [Building::start(no_stroke()); 64];
    };
    let mut b = Building::start(*first);
    let mut zones = [b; 64];
    for (i, s) in rest.iter().enumerate() {
        b = b.next(*s);
        zones[i + 1] = b;
    }
    zones
}
