// The inner raw bars of a kept stroke that is named by its place, written to lent columns.
ghost use Rattle.std.specs.Prelude.{◌≡◌, ◌+◌, length, T};
ghost use mathlib.Core.List.{foldl};
ghost use Rattle.bars.specs.Lists.{every};
ghost use Rattle.stores.specs.Code.StoreRows.{RoomRaw};
ghost use Rattle.strokes.specs.Columns.{stores_in};
ghost use Rattle.sound.specs.Code.SoundStand.{is_time};
ghost use Rattle.reports.specs.Code.ElementPrices.{elements_in, named_bar, bars_named};
ghost use Rattle.reports.specs.InnerRawBars.{put_bars, listed, list_bars, raw_bars_at};
ghost use Rattle.reports.specs.Code.InnerRawSteps.{filling, put_one};
ghost use Rattle.stores.specs.Columns.{raw_of, SameRaw};

use super::first_questions::ask_stroke;
use super::inner_bars::{InnerBars, RawBars};
use super::rows_shown::inner_bars;
use bars::Question;
use stores::RawColumnsMut;
use strokes::{Stand, StoreColumns};

// The raw bars of these times, from place `at` of the output on: the place behind them.
fn put_named(raw: RawBars<'_>, times: &[i64], out: &mut RawColumnsMut<'_>, at: usize) -> usize
    requires named { T (every (is_time raw.columns.times.now) times.now) }
    requires room { RoomRaw (raw_of out.old) (at + length times.now) }
    ensures put { filling (raw_of out.new) result ≡ foldl (put_one (named_bar raw.entry)) (filling (raw_of out.old) at) times.now }
    ensures same { SameRaw out.old out.new }
{
    for (j, time) in times.iter().enumerate() {
        out.put_bar(at + j, raw.bar(*time));
    }
    at + times.len()
}

// Those that the elements of these merged bars name, from place 0 on.
// Kept: by place, see InnerBars::elements_at.
fn put_rows(inner: InnerBars<'_>, out: &mut RawColumnsMut<'_>)
    requires { RoomRaw (raw_of out.old) (length (elements_in inner.counts.now inner.elements.now)) }
    ensures put { raw_of out.new ≡ put_bars (raw_of out.old) 0 (bars_named inner.entry) }
    ensures same { SameRaw out.old out.new }
{
    let mut k: usize = 0;
    for i in 0..inner.counts.len() {
        k = put_named(inner.raw, inner.elements_at(i), out, k);
    }
}

// The same where the output has a place for each of them, and how many they are. Question 14.
fn list_rows(inner: InnerBars<'_>, out: &mut RawColumnsMut<'_>) -> Result<usize, Question>
    ensures listed { listed result (raw_of out.new) ≡ list_bars (bars_named inner.entry) (raw_of out.old) }
    ensures same { SameRaw out.old out.new }
{
    let m = inner.count_elements();
    if out.seen().rows() < m {
        return Err(Question::OutputRoom);
    }
    put_rows(inner, out);
    Ok(m)
}

// The inner raw bars of the stroke at a place, the oldest at 0, from place 0 of the output on: how many they are. Questions
// 4, 13 and 14; a refusal writes nothing.
pub fn raw_bars(
    stand: Stand,
    stores: StoreColumns<'_>,
    place: usize,
    out: &mut RawColumnsMut<'_>,
) -> Result<usize, Question>
    ensures listed { listed result (raw_of out.new) ≡ raw_bars_at stand (stores_in stores.entry) place (raw_of out.old) }
    ensures same { SameRaw out.old out.new }
{
    let rows = ask_stroke(stand, stores, place)?;
    list_rows(inner_bars(rows, stores, stand.raw), out)
}
