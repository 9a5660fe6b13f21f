// Fake strokes, zones, and what is told of runs of strokes.
#![tactic(auto)]

mod fake_strokes;
mod fake_writing;
mod kept_run;
mod lent_rows;
mod lent_zone;
mod named_runs;
mod reading;
mod runs_of_strokes;
mod zone_building;
mod zone_writing;

pub use fake_strokes::{fake_count, fake_stroke};
pub use fake_writing::create_fake_bis;
pub use lent_rows::{FakeColumnsMut, RowsMut, StrokeColumnsMut, ZoneColumnsMut};
pub use lent_zone::{Building, no_stroke, zones_of_run};
use machine::Direction;
pub use named_runs::{is_bis_down, is_bis_up};
pub use runs_of_strokes::{GrowingRun, StrokeCount, goes};
pub use zone_building::GrowingZone;
pub use zone_writing::{ZoneCounts, get_zs_seq};

// What a zone reads of a stroke, a BI of the source: its direction, get_high, get_low, and the times
// of its start and its end fractal.
#[derive(Clone, Copy)]
pub struct Summary {
    pub direction: Direction,
    pub high: f64,
    pub low: f64,
    pub began: i64,
    pub ended: i64,
}

// FakeBI of the source: two neighbouring fractals of a stroke's list, read as a stroke.
#[derive(Clone, Copy)]
pub struct FakeStroke {
    pub direction: Direction,
    pub sdt: i64,
    pub edt: i64,
    pub high: f64,
    pub low: f64,
    pub power: f64,
}
