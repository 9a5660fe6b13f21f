// One analyzer: from an accepted `n` to the next.
ghost use Rattle.strokes.specs.Columns.{written_in};
ghost use Rattle.from_fresh.specs.FromFresh.{FromFresh};

use crate::calls::{Call, Fresh};
use crate::owned::OwnedStores;
use crate::player::{Failure, Player};
use from_fresh::update_from_fresh;
use report_lines::Analyzer;
use stores::{MergedColumnsMut, RawColumnsMut};
use strokes::{FractalColumnsMut, Stand, StoreColumns};

// The answers to the lines that follow, up to the next accepted `n`, which is handed back, or to the last line.
// Kept: four values to be written, as StoreColumns (strokes) says.
fn play(
    player: &mut Player,
    fresh: Stand,
    mut raw: RawColumnsMut<'_>,
    mut unfinished: MergedColumnsMut<'_>,
    mut strokes: MergedColumnsMut<'_>,
    mut fractals: FractalColumnsMut<'_>,
) -> Result<Option<Fresh>, Failure>
    requires { FromFresh fresh (written_in raw unfinished strokes fractals) }
{
    let mut stand = fresh;
    // A proved loop has to end, and nothing says that the input does. So it counts the lines, up to a number that no run reaches.
    // Kept: a loop of its own, as in main and in Player::first: one function for the three would take this body as a closure, whose contract had to carry the
    // loop's invariant (from a fresh analyzer) and the four lent values with it.
    for _ in 0..u64::MAX {
        let Some(call) = player.next_call()? else {
            break;
        };
        if let Call::Feed(bar) = call {
            // The stand and the stores come from a fresh analyzer by feeds: of question 4 it then asks the clause on the newest raw bar alone.
            let answer = update_from_fresh(
                &mut stand,
                &mut raw,
                &mut unfinished,
                &mut strokes,
                &mut fractals,
                bar,
                0,
            );
            player.fed(answer)?;
        } else if matches!(call, Call::Stand | Call::Reports) {
            let stores = StoreColumns::of(&raw, &unfinished, &strokes, &fractals);
            player.show(call, Analyzer { stand, stores })?;
        } else {
            let accepted = player.answer(call)?;
            if accepted.is_some() {
                return Ok(accepted);
            }
        }
    }
    Ok(None)
}

// The same from the fresh analyzer on. One that was accepted is not refused.
fn start(
    player: &mut Player,
    asked: Fresh,
    raw: RawColumnsMut<'_>,
    unfinished: MergedColumnsMut<'_>,
    strokes: MergedColumnsMut<'_>,
    fractals: FractalColumnsMut<'_>,
) -> Result<Option<Fresh>, Failure> {
    let stores = StoreColumns::of(&raw, &unfinished, &strokes, &fractals);
    let Ok(stand) = sound::new_stand(asked.settings, stores) else {
        return Ok(None);
    };
    play(player, stand, raw, unfinished, strokes, fractals)
}

// The same over the program's own stores, as long as was asked for. The answers so far are written first, so that none is lost where memory is short.
pub fn with_stores(
    stores: &mut OwnedStores,
    player: &mut Player,
    asked: Fresh,
) -> Result<Option<Fresh>, Failure> {
    player.flush()?;
    let rooms = asked.rooms;
    stores.grow(rooms)?;
    start(
        player,
        asked,
        stores.raw.lent(rooms.raw),
        stores.unfinished.lent(rooms.unfinished),
        stores.strokes.lent(rooms.strokes),
        stores.fractals.lent(rooms.strokes),
    )
}
