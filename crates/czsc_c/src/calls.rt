// The calls. A fresh analyzer and a feed that answer a number above 0 leave all lent memory as it was, and so does a list of bars that fails questions 1, 2, 17, 3 or 14; behind these it hands over
// stand and sums whatever it answers. Rows that are missing are answered by a number too: 4 where no stand can be read, 14 where an answer has no place.
// Kept: the columns one by one, and numbers for refusals, since a C program calls: each call makes values of the columns and calls a function over these.
// Kept: in that function four values to be written: strokes/lent_columns.rt says why no value has them all.
ghost use Rattle.std.specs.Prelude.{◌≡◌, IfOk};
ghost use Rattle.bars.specs.Refusals.{asked};
ghost use Rattle.stores.specs.Stores.{raw_bars};
ghost use Rattle.stores.specs.Columns.{raw_in};
ghost use Rattle.stores.specs.Lent.{raw_seen};
ghost use Rattle.strokes.specs.declared.Stand.{Stand};
ghost use Rattle.strokes.specs.Lent.{before, after, stores_seen};
ghost use Rattle.strokes.specs.Columns.{stores_in, written_in, SameColumns};
ghost use Rattle.strokes.specs.Packed.{packed};
ghost use Rattle.sound.specs.FreshStand.{fresh_of};
ghost use Rattle.czsc_c.specs.Handed.{bar_with, stand_handed, fresh_handed, failed_before, UpdateHanded, failed_first, BatchHanded, SameRows};

use crate::handed::{StandRows, hand_over, hand_over_all};
use bars::{Bar, Question, number_of};
use sound::Settings;
use stores::{MergedColumns, MergedColumnsMut, RawColumns, RawColumnsMut};
use strokes::{FractalColumns, FractalColumnsMut, Stand, StoreColumns, pack, unpack};

// ---- a fresh analyzer

fn fresh_packed(
    settings: Settings,
    rows: &mut StandRows<'_>,
    stores: StoreColumns<'_>,
) -> Result<(), Question>
    ensures handed { stand_handed (asked result) rows.new.numbers.now rows.new.counts.now ≡ fresh_handed (fresh_of settings.minimum settings.most settings.power settings.ratio (stores_in stores.entry)) rows.old.numbers.now rows.old.counts.now }
    ensures same { SameRows rows.old rows.new }
{
    let stand = sound::new_stand(settings, stores)?;
    if !rows.there() {
        return Err(Question::OutputRoom);
    }
    pack(stand, rows.numbers, rows.counts);
    Ok(())
}

// A fresh analyzer for the lent stores, whose stand is packed: questions 1, 2, 17 and 3, then 14. `power` and `ratio` are the places for power and for ratios.
#[unsafe(no_mangle)]
pub extern "C" fn czsc_fresh(
    minimum: usize,
    most: usize,
    power: usize,
    ratio: usize,
    numbers: &mut [[usize; 10]],
    counts: &mut [[u32; 65]],
    rt: &[i64],
    ri: &[i32],
    rp: &[[f64; 6]],
    ut: &[i64],
    ui: &[i32],
    up: &[[f64; 6]],
    uc: &[usize],
    ue: &[[i64; 101]],
    st: &[i64],
    si: &[i32],
    sp: &[[f64; 6]],
    sc: &[usize],
    se: &[[i64; 101]],
    fs: &[[i64; 6]],
    fp: &[[f64; 18]],
) -> u64
    ensures { stand_handed result numbers.new counts.new ≡ fresh_handed (fresh_of minimum most power ratio (stores_seen rt ri rp ut ui up uc ue st si sp sc se fs fp)) numbers.old counts.old }
{
    let raw = RawColumns {
        times: rt,
        ids: ri,
        prices: rp,
    };
    let unfinished = MergedColumns {
        times: ut,
        ids: ui,
        prices: up,
        counts: uc,
        elements: ue,
    };
    let strokes = MergedColumns {
        times: st,
        ids: si,
        prices: sp,
        counts: sc,
        elements: se,
    };
    let fractals = FractalColumns {
        stamps: fs,
        prices: fp,
    };
    let stores = StoreColumns {
        raw,
        unfinished,
        strokes,
        fractals,
    };
    let settings = Settings {
        minimum,
        most,
        power,
        ratio,
    };
    let mut rows = StandRows { numbers, counts };
    number_of(fresh_packed(settings, &mut rows, stores))
}

// ---- a feed

// The stand that a bar is fed to: 4 where no stand is there or it is not sound, 14 where its answer has no place.
fn packed_stand(
    rows: &StandRows<'_>,
    events: &[[u64; 3]],
    stores: StoreColumns<'_>,
) -> Result<Stand, Question>
    ensures failed { asked result ≡ failed_before rows.now.numbers.now rows.now.counts.now events.now (stores_in stores.entry) }
    ensures stand { IfOk result (λ (s : Stand). s ≡ packed rows.now.numbers.now rows.now.counts.now) }
{
    if !rows.there() {
        return Err(Question::Sound);
    }
    let stand = unpack(rows.numbers, rows.counts);
    question4::ask(stand, stores)?;
    if events.is_empty() {
        return Err(Question::OutputRoom);
    }
    Ok(stand)
}

fn update_packed(
    rows: &mut StandRows<'_>,
    events: &mut [[u64; 3]],
    raw: &mut RawColumnsMut<'_>,
    unfinished: &mut MergedColumnsMut<'_>,
    strokes: &mut MergedColumnsMut<'_>,
    fractals: &mut FractalColumnsMut<'_>,
    b: Bar,
) -> Result<(), Question>
    ensures handed { UpdateHanded rows.old.numbers.now rows.old.counts.now events.old (written_in raw.old unfinished.old strokes.old fractals.old) b (asked result) rows.new.numbers.now rows.new.counts.now events.new (written_in raw.new unfinished.new strokes.new fractals.new) }
    ensures same_rows { SameRows rows.old rows.new }
    ensures same { SameColumns raw.old unfinished.old strokes.old fractals.old raw.new unfinished.new strokes.new fractals.new }
{
    let stores = StoreColumns::of(raw, unfinished, strokes, fractals);
    let mut stand = packed_stand(rows, events, stores)?;
    let fed = feed::feed_sound(&mut stand, raw, unfinished, strokes, fractals, b, 0);
    hand_over(stand, fed, rows, events)
}

// A feed of one bar to the packed stand: 4, 14, then questions 5 to 12.
#[unsafe(no_mangle)]
pub extern "C" fn czsc_update_bar(
    numbers: &mut [[usize; 10]],
    counts: &mut [[u32; 65]],
    events: &mut [[u64; 3]],
    rt: &mut [i64],
    ri: &mut [i32],
    rp: &mut [[f64; 6]],
    ut: &mut [i64],
    ui: &mut [i32],
    up: &mut [[f64; 6]],
    uc: &mut [usize],
    ue: &mut [[i64; 101]],
    st: &mut [i64],
    si: &mut [i32],
    sp: &mut [[f64; 6]],
    sc: &mut [usize],
    se: &mut [[i64; 101]],
    fs: &mut [[i64; 6]],
    fp: &mut [[f64; 18]],
    time: i64,
    id: i32,
    open: f64,
    close: f64,
    high: f64,
    low: f64,
    vol: f64,
    amount: f64,
) -> u64
    ensures { UpdateHanded numbers.old counts.old events.old (before rt ri rp ut ui up uc ue st si sp sc se fs fp) (bar_with time id «open» close high low vol amount) result numbers.new counts.new events.new (after rt ri rp ut ui up uc ue st si sp sc se fs fp) }
{
    let mut raw = RawColumnsMut {
        times: rt,
        ids: ri,
        prices: rp,
    };
    let mut unfinished = MergedColumnsMut {
        times: ut,
        ids: ui,
        prices: up,
        counts: uc,
        elements: ue,
    };
    let mut strokes = MergedColumnsMut {
        times: st,
        ids: si,
        prices: sp,
        counts: sc,
        elements: se,
    };
    let mut fractals = FractalColumnsMut {
        stamps: fs,
        prices: fp,
    };
    let b = Bar {
        time,
        id,
        open,
        close,
        high,
        low,
        vol,
        amount,
    };
    let mut rows = StandRows { numbers, counts };
    number_of(update_packed(
        &mut rows,
        events,
        &mut raw,
        &mut unfinished,
        &mut strokes,
        &mut fractals,
        b,
    ))
}

// ---- a list of bars

// What a list of bars is refused with before the first one is looked at: questions 1, 2, 17 and 3, and 14 where stand or sums have no place.
// Kept: new_stand and the test for rows as in fresh_packed: a function of these two would have a contract that is longer than both.
fn ask_first(
    settings: Settings,
    rows: &StandRows<'_>,
    sums: &[[u64; 4]],
    stores: StoreColumns<'_>,
) -> Result<(), Question>
    ensures { asked result ≡ failed_first (fresh_of settings.minimum settings.most settings.power settings.ratio (stores_in stores.entry)) rows.now.numbers.now rows.now.counts.now sums.now }
{
    let _ = sound::new_stand(settings, stores)?;
    if !rows.there() {
        return Err(Question::OutputRoom);
    }
    if sums.is_empty() {
        return Err(Question::OutputRoom);
    }
    Ok(())
}

// Kept: a match of what was refused: `map_or(Ok(()), Err)` would have the call that went well as the default, before the refusal.
fn feed_packed(
    settings: Settings,
    rows: &mut StandRows<'_>,
    sums: &mut [[u64; 4]],
    raw: &mut RawColumnsMut<'_>,
    unfinished: &mut MergedColumnsMut<'_>,
    strokes: &mut MergedColumnsMut<'_>,
    fractals: &mut FractalColumnsMut<'_>,
    bars: RawColumns<'_>,
) -> Result<(), Question>
    ensures handed { BatchHanded settings.minimum settings.most settings.power settings.ratio rows.old.numbers.now rows.old.counts.now sums.old (written_in raw.old unfinished.old strokes.old fractals.old) (raw_bars (raw_in bars.entry)) (asked result) rows.new.numbers.now rows.new.counts.now sums.new (written_in raw.new unfinished.new strokes.new fractals.new) }
    ensures same_rows { SameRows rows.old rows.new }
    ensures same { SameColumns raw.old unfinished.old strokes.old fractals.old raw.new unfinished.new strokes.new fractals.new }
{
    let stores = StoreColumns::of(raw, unfinished, strokes, fractals);
    ask_first(settings, rows, sums, stores)?;
    let fed = batch::feed_all(settings, raw, unfinished, strokes, fractals, bars)?;
    hand_over_all(fed, rows, sums);
    match fed.refused {
        None => Ok(()),
        Some(q) => Err(q),
    }
}

// A list of bars fed to a fresh analyzer: questions 1, 2, 17 and 3, then 14, then what the batch call answers. The rows then tell how far it came.
#[unsafe(no_mangle)]
pub extern "C" fn czsc_feed_all(
    minimum: usize,
    most: usize,
    power: usize,
    ratio: usize,
    numbers: &mut [[usize; 10]],
    counts: &mut [[u32; 65]],
    sums: &mut [[u64; 4]],
    rt: &mut [i64],
    ri: &mut [i32],
    rp: &mut [[f64; 6]],
    ut: &mut [i64],
    ui: &mut [i32],
    up: &mut [[f64; 6]],
    uc: &mut [usize],
    ue: &mut [[i64; 101]],
    st: &mut [i64],
    si: &mut [i32],
    sp: &mut [[f64; 6]],
    sc: &mut [usize],
    se: &mut [[i64; 101]],
    fs: &mut [[i64; 6]],
    fp: &mut [[f64; 18]],
    bt: &[i64],
    bi: &[i32],
    bp: &[[f64; 6]],
) -> u64
    ensures { BatchHanded minimum most power ratio numbers.old counts.old sums.old (before rt ri rp ut ui up uc ue st si sp sc se fs fp) (raw_bars (raw_seen bt bi bp)) result numbers.new counts.new sums.new (after rt ri rp ut ui up uc ue st si sp sc se fs fp) }
{
    let mut raw = RawColumnsMut {
        times: rt,
        ids: ri,
        prices: rp,
    };
    let mut unfinished = MergedColumnsMut {
        times: ut,
        ids: ui,
        prices: up,
        counts: uc,
        elements: ue,
    };
    let mut strokes = MergedColumnsMut {
        times: st,
        ids: si,
        prices: sp,
        counts: sc,
        elements: se,
    };
    let mut fractals = FractalColumnsMut {
        stamps: fs,
        prices: fp,
    };
    let bars = RawColumns {
        times: bt,
        ids: bi,
        prices: bp,
    };
    let settings = Settings {
        minimum,
        most,
        power,
        ratio,
    };
    let mut rows = StandRows { numbers, counts };
    number_of(feed_packed(
        settings,
        &mut rows,
        sums,
        &mut raw,
        &mut unfinished,
        &mut strokes,
        &mut fractals,
        bars,
    ))
}
