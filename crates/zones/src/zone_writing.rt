// get_zs_seq of a run of kept strokes: the run is read once, its zones are built, and zones and
// strokes are written to lent columns.
ghost use Rattle.std.specs.Prelude.{◌≡◌, ◌+◌, ◌≤◌, length, set};
ghost use mathlib.Core.List.{foldl};
ghost use Rattle.bars.specs.Refusals.{asked};
ghost use Rattle.strokes.specs.Columns.{stores_in};
ghost use Rattle.zones.specs.Columns.{strokes_of, zones_of, SameRows, RoomRows};
ghost use Rattle.zones.specs.ListedZones.{zones_call, zones_told, strokes_told, listed_zones};
ghost use Rattle.zones.specs.ZoneRows.{stroke_times, stroke_prices, stroke_code, put_strokes};
ghost use Rattle.zones.specs.Code.ZoneSteps.{zone_count, set_zone, FewZones, RoomBuilt, zones_read_if};

use super::kept_run::Run;
use super::lent_zone::zones_of_run;
use crate::{Building, StrokeColumnsMut, Summary, ZoneColumnsMut};
use bars::Question;
use strokes::{Stand, StoreColumns};

// How many zones are listed, and how many strokes.
#[derive(Clone, Copy, Debug, PartialEq, Eq)]
pub struct ZoneCounts {
    pub zones: usize,
    pub strokes: usize,
}

// How many zones there are, of the zone that each of the run's strokes is in.
// Kept: a match. Tried with `map_or`: of the number that its closure gives only a post-condition is known, and the proof did not close.
fn zone_count(built: &[Building]) -> usize
    requires { FewZones built.now (length built.now) }
    ensures { result ≡ zone_count built.now (length built.now) }
{
    match built.last() {
        None => 0,
        Some(b) => b.done + 1,
    }
}

// The row of the zone under construction, after those of the zones that are done.
fn write_zone(b: Building, to: &mut ZoneColumnsMut<'_>)
    requires { RoomRows to.old (b.done + 1) }
    ensures written { zones_of to.new ≡ set_zone (zones_of to.old) b }
    ensures same { SameRows to.old to.new }
{
    let zone = b.zone;
    let (first, last) = (zone.first, zone.last);
    to.put(
        b.done,
        [first.began, last.ended],
        [zone.zg, zone.zd, zone.zz(), zone.gg, zone.dd],
        [
            first.direction as usize,
            last.direction as usize,
            zone.is_valid() as usize,
            b.size,
        ],
    );
}

// The run's zones. A zone's row is written at each of its strokes, and the last stands.
fn write_zones(built: &[Building], to: &mut ZoneColumnsMut<'_>)
    requires { RoomBuilt built.now (length built.now) (zones_of to.old) }
    ensures written { zones_of to.new ≡ foldl set_zone (zones_of to.old) built.now }
    ensures same { SameRows to.old to.new }
{
    for b in built {
        write_zone(*b, to);
    }
}

// The row of a stroke.
fn write_stroke(s: Summary, to: &mut StrokeColumnsMut<'_>, at: usize)
    requires { RoomRows to.old (at + 1) }
    ensures times { to.new.times.now ≡ set to.old.times.now at (stroke_times s) }
    ensures prices { to.new.prices.now ≡ set to.old.prices.now at (stroke_prices s) }
    ensures codes { to.new.kinds.now ≡ set to.old.kinds.now at (stroke_code s) }
    ensures same { SameRows to.old to.new }
{
    to.put(at, [s.began, s.ended], [s.high, s.low], s.direction as u8);
}

// The run's strokes.
fn write_strokes(run: &[Summary], to: &mut StrokeColumnsMut<'_>)
    requires { RoomRows to.old (length run.now) }
    ensures written { strokes_of to.new ≡ put_strokes (strokes_of to.old) run.now }
    ensures same { SameRows to.old to.new }
{
    for (j, s) in run.iter().enumerate() {
        write_stroke(*s, to, j);
    }
}

// Question 14, then the zones and the strokes of a run that is read.
fn write_run(
    run: &[Summary],
    zones: &mut ZoneColumnsMut<'_>,
    strokes: &mut StrokeColumnsMut<'_>,
) -> Result<ZoneCounts, Question>
    requires { length run.now ≤ 64 }
    ensures listed { zones_call (asked result) (zones_told result) (strokes_told result) (zones_of zones.new) (strokes_of strokes.new) ≡ zones_read_if (zones_of zones.old) (strokes_of strokes.old) run.now }
    ensures same_zones { SameRows zones.old zones.new }
    ensures same_strokes { SameRows strokes.old strokes.new }
{
    let built = zones_of_run(run);
    let built = &built[..run.len()];
    let counts = ZoneCounts {
        zones: zone_count(built),
        strokes: run.len(),
    };
    if !zones.fits(counts.zones) || !strokes.fits(counts.strokes) {
        return Err(Question::OutputRoom);
    }
    write_zones(built, zones);
    write_strokes(run, strokes);
    Ok(counts)
}

// get_zs_seq of a run of kept strokes.
pub fn get_zs_seq(
    stand: Stand,
    stores: StoreColumns<'_>,
    first: usize,
    count: usize,
    zones: &mut ZoneColumnsMut<'_>,
    strokes: &mut StrokeColumnsMut<'_>,
) -> Result<ZoneCounts, Question>
    ensures listed { zones_call (asked result) (zones_told result) (strokes_told result) (zones_of zones.new) (strokes_of strokes.new) ≡ listed_zones stand (stores_in stores.entry) first count (zones_of zones.old) (strokes_of strokes.old) }
    ensures same_zones { SameRows zones.old zones.new }
    ensures same_strokes { SameRows strokes.old strokes.new }
{
    let run = Run::ask(stand, stores, first, count)?;
    write_run(&run.strokes()[..run.count], zones, strokes)
}
