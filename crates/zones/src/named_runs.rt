// Runs of kept strokes, named by the first place and the length: is_bis_up and is_bis_down.
ghost use Rattle.std.specs.Prelude.{◌≡◌, length, IfOk};
ghost use Rattle.bars.specs.Refusals.{asked};
ghost use Rattle.strokes.specs.Columns.{fractals_in, stores_in};
ghost use Rattle.zones.specs.NamedRuns.{run_failed, run_answer, held_by, bis_up_answer, bis_down_answer, bis_answer};
ghost use Rattle.zones.specs.Code.Runs.{IsRun};

use super::kept_run::Run;
use super::runs_of_strokes::goes;
use bars::Question;
use machine::Direction;
use named::run_exists;
use strokes::{Stand, StoreColumns};

impl<'a> Run<'a> {
    // Questions 4 and 13, and then the run that is named. The contract adds the lengths of the stand's lists of counts.
    // Kept: the lengths as a clause, as in run_exists (named), which tells them: create_fake_bis reads the two lists by place.
    pub fn ask(
        stand: Stand,
        stores: StoreColumns<'a>,
        first: usize,
        count: usize,
    ) -> Result<Self, Question>
        ensures failed { asked result ≡ run_failed stand (stores_in stores.entry) first count }
        ensures run { IfOk result (λ run. IsRun run stand (fractals_in stores.entry.fractals) first count) }
        ensures counts { (length stand.bars ≡ 65) × (length stand.fractals ≡ 65) }
    {
        let exists = run_exists(stand, first, count);
        question4::ask(stand, stores)?;
        if !exists {
            return Err(Question::Exists);
        }
        Ok(Run {
            stand,
            fractals: stores.fractals,
            first,
            count,
        })
    }
}

// is_bis_up or is_bis_down of a run of kept strokes, by the way that is asked.
fn is_bis(
    stand: Stand,
    stores: StoreColumns<'_>,
    first: usize,
    count: usize,
    way: Direction,
) -> Result<bool, Question>
    ensures { run_answer (asked result) (held_by result) ≡ bis_answer way stand (stores_in stores.entry) first count }
{
    let run = Run::ask(stand, stores, first, count)?;
    Ok(goes(way, &run.strokes()[..run.count]))
}

// is_bis_up of a run of kept strokes.
pub fn is_bis_up(
    stand: Stand,
    stores: StoreColumns<'_>,
    first: usize,
    count: usize,
) -> Result<bool, Question>
    ensures { run_answer (asked result) (held_by result) ≡ bis_up_answer stand (stores_in stores.entry) first count }
{
    is_bis(stand, stores, first, count, Direction::Up)
}

// is_bis_down of a run of kept strokes.
pub fn is_bis_down(
    stand: Stand,
    stores: StoreColumns<'_>,
    first: usize,
    count: usize,
) -> Result<bool, Question>
    ensures { run_answer (asked result) (held_by result) ≡ bis_down_answer stand (stores_in stores.entry) first count }
{
    is_bis(stand, stores, first, count, Direction::Down)
}
