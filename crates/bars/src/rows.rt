// A bar from and to its row of prices, as stores and columns have it: open, close, high, low, volume, amount.
ghost use Rattle.std.specs.Prelude.{◌≡◌};
ghost use Rattle.bars.specs.Bars.{row_of, bar_with};

use crate::Bar;

impl Bar {
    // The bar of this time and id that has this row of prices.
    pub fn of(time: i64, id: i32, row: [f64; 6]) -> Bar
        ensures { result ≡ bar_with time id row }
    {
        let [open, close, high, low, vol, amount] = row;
        Bar {
            time,
            id,
            open,
            close,
            high,
            low,
            vol,
            amount,
        }
    }

    // Its row of prices.
    #[tactic(auto, unfolding(crate::specs::Bars::row_of))]
    pub fn prices(self) -> [f64; 6]
        ensures { result ≡ row_of self }
    {
        [
            self.open,
            self.close,
            self.high,
            self.low,
            self.vol,
            self.amount,
        ]
    }
}
