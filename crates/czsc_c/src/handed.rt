// What a call hands over in lent rows: the stand, packed, and what was counted.
ghost use Rattle.std.specs.Prelude.{◌≡◌, [], ◌∷◌, ◌≤◌, length, set};
ghost use Rattle.bars.specs.Refusals.{asked};
ghost use Rattle.strokes.specs.Packed.{numbers_with, counts_with, rows_there};
ghost use Rattle.czsc_c.specs.Handed.{HandedOver, SameRows};

use bars::Question;
use batch::BatchAnswer;
use feed::Events;
use strokes::{Stand, pack, rows_there};

// The rows in which a caller keeps a stand between two calls.
#[derive(Drop)]
pub struct StandRows<'a> {
    pub numbers: &'a mut [[usize; 10]],
    pub counts: &'a mut [[u32; 65]],
}

impl<'a> StandRows<'a> {
    // Whether they are so many that they hold a stand.
    pub fn there(&self) -> bool
        ensures { result ≡ rows_there self.now.numbers.now self.now.counts.now }
    {
        rows_there(self.numbers, self.counts)
    }
}

// What a feed answered, and the stand after it; a refusal writes nothing. The row of `events`: strokes made, broken and shed.
pub fn hand_over(
    stand: Stand,
    r: Result<Events, Question>,
    rows: &mut StandRows<'_>,
    events: &mut [[u64; 3]],
) -> Result<(), Question>
    requires { (1 ≤ length rows.old.numbers.now) × (2 ≤ length rows.old.counts.now) × (1 ≤ length events.old) }
    ensures handed { HandedOver stand r rows.old.numbers.now rows.old.counts.now events.old (asked result) rows.new.numbers.now rows.new.counts.now events.new }
    ensures same { SameRows rows.old rows.new }
{
    // Kept: a match. Tried with `?`: that what it hands up is the refusal of r did not close.
    match r {
        Ok(e) => {
            pack(stand, rows.numbers, rows.counts);
            events[0] = [e.made, e.broken, e.shed];
            Ok(())
        }
        Err(q) => Err(q),
    }
}

// What the batch call answered. The row of `sums`: strokes made, broken and shed, and bars accepted.
pub fn hand_over_all(r: BatchAnswer, rows: &mut StandRows<'_>, sums: &mut [[u64; 4]])
    requires { (1 ≤ length rows.old.numbers.now) × (2 ≤ length rows.old.counts.now) × (1 ≤ length sums.old) }
    ensures rows { (rows.new.numbers.now ≡ numbers_with r.stand rows.old.numbers.now) × (rows.new.counts.now ≡ counts_with r.stand rows.old.counts.now) }
    ensures sums { sums.new ≡ set sums.old 0 (r.events.made ∷ r.events.broken ∷ r.events.shed ∷ r.fed ∷ []) }
    ensures same { SameRows rows.old rows.new }
{
    pack(r.stand, rows.numbers, rows.counts);
    let e = r.events;
    sums[0] = [e.made, e.broken, e.shed, r.fed as u64];
}
