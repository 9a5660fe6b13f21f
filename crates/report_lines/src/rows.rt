// Rows of zones, of strokes and of fake strokes, as `zones` writes them to lent columns.
use zones::RowsMut;

// One row: two times, P prices and what stands in the last column.
#[derive(Clone, Copy)]
pub struct Row<const P: usize, K> {
    pub times: [i64; 2],
    pub prices: [f64; P],
    pub kind: K,
}

// Columns of N places.
#[derive(Drop)]
pub struct Rows<const N: usize, const P: usize, K> {
    times: [[i64; 2]; N],
    prices: [[f64; P]; N],
    kinds: [K; N],
}

impl<const N: usize, const P: usize, K: Copy> Rows<N, P, K> {
    // With this in each place of the last column.
    pub fn new(kind: K) -> Self {
        Rows {
            times: [[0; 2]; N],
            prices: [[0.0; P]; N],
            kinds: [kind; N],
        }
    }

    pub fn lent(&mut self) -> RowsMut<'_, P, K> {
        RowsMut {
            times: &mut self.times,
            prices: &mut self.prices,
            kinds: &mut self.kinds,
        }
    }

    // The row at a place, if there is one.
    pub fn row(&self, at: usize) -> Option<Row<P, K>> {
        Some(Row {
            times: *self.times.get(at)?,
            prices: *self.prices.get(at)?,
            kind: *self.kinds.get(at)?,
        })
    }
}
