// The merged bars of a stroke between its first and its last, and the raw bars that their elements name, where they lie: nothing is copied.
ghost use Rattle.std.specs.Prelude.{◌≡◌, ◌≤◌, length, T};
ghost use Rattle.stores.specs.Code.StoreRows.{rising};
ghost use Rattle.sound.specs.Code.SoundStand.{named_rows};

use stores::RawColumns;

// Raw bars in rising order of their times.
#[derive(Clone, Copy, Drop)]
pub struct RawBars<'a> {
    pub columns: RawColumns<'a>,
    ghost ids: { length columns.ids.now ≡ length columns.times.now },
    ghost prices: { length columns.prices.now ≡ length columns.times.now },
    ghost rise: { T (rising columns.times.now) },
}

// The merged bars: of each, its row of prices, how many elements it has and the elements, which are times of raw bars.
#[derive(Clone, Copy, Drop)]
pub struct InnerBars<'a> {
    pub raw: RawBars<'a>,
    pub prices: &'a [[f64; 6]],
    pub counts: &'a [usize],
    pub elements: &'a [[i64; 101]],
    ghost even: { length counts.now ≡ length elements.now },
    ghost few: { length counts.now ≤ 65536 },
    ghost named: { T (named_rows raw.columns.times.now counts.now elements.now) },
}
