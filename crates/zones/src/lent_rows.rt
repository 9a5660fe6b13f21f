// The columns that zones, the strokes of a run and fake strokes are written to, as one value. They are the caller's: no row is copied, and none is owned here.
ghost use Rattle.std.specs.Prelude.{◌≡◌, ◌+◌, ◌&&◌, leb, length, set};
ghost use Rattle.zones.specs.Columns.{SameRows, RoomRows};

// Rows of two times, P prices and what stands in a last column.
// Kept: columns side by side, with numbers for a direction and a validity, since docs/DECISIONS.md (Zones) has the rows so, and the theorems that read them
// back (zones-told, fakes-told: docs/STATEMENT.md) are of these columns.
#[derive(Drop)]
pub struct RowsMut<'a, const P: usize, K> {
    pub times: &'a mut [[i64; 2]],
    pub prices: &'a mut [[f64; P]],
    pub kinds: &'a mut [K],
}

// Fake strokes: high, low and power, and 0 for up or 1 for down.
pub type FakeColumnsMut<'a> = RowsMut<'a, 3, u8>;

// The strokes of a run: high and low, and 0 for up or 1 for down.
pub type StrokeColumnsMut<'a> = RowsMut<'a, 2, u8>;

// Zones: zg, zd, zz, gg and dd; both directions, 1 or 0 for whether it is valid, and how many strokes it has.
pub type ZoneColumnsMut<'a> = RowsMut<'a, 5, [usize; 4]>;

impl<'a, const P: usize, K: Copy> RowsMut<'a, P, K> {
    // Every column has n places.
    pub fn fits(&self, n: usize) -> bool
        ensures { result ≡ (leb n (length self.now.times.now) && (leb n (length self.now.prices.now) && leb n (length self.now.kinds.now))) }
    {
        n <= self.times.len() && n <= self.prices.len() && n <= self.kinds.len()
    }

    // Writes the row at a place.
    pub fn put(&mut self, at: usize, times: [i64; 2], prices: [f64; P], kind: K)
        requires { RoomRows self.old (at + 1) }
        ensures times { self.new.times.now ≡ set self.old.times.now at times }
        ensures prices { self.new.prices.now ≡ set self.old.prices.now at prices.entry }
        ensures kinds { self.new.kinds.now ≡ set self.old.kinds.now at kind }
        ensures same { SameRows self.old self.new }
    {
        self.times[at] = times;
        self.prices[at] = prices;
        self.kinds[at] = kind;
    }
}
