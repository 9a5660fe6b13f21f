// Replays calls of the analyzer, one line each, from standard input: the replay format. A call is `n MIN MAX RAW UBI STROKE` (a fresh analyzer),
// `b TIME ID OPEN CLOSE HIGH LOW VOL AMOUNT` (a bar), `d` (the stand) or `r` (all reports); floats are the 16 hexadecimal digits of their bits. An
// empty line and one that starts with `#` have no answer, and any other line is answered `bad line N`. So is a line of more than 65,536 bytes, and an `n` with a
// number of more than 2^63 - 1.
//
// oracle/replays wrote stdin and stdout: the Rust answered the parts in which no store fills up. The Rust asks no questions, so the refusals are
// document 01's: 1 to 3 and 5 to 9 by the tests of the oracle's driver, 4 and 10 to 12 by its model (oracle/model), as the comments of stdin say.
#![tactic(auto)]

mod analyzers;
mod calls;
mod owned;
mod player;

use owned::OwnedStores;
use player::{Failure, Player};

// One analyzer after the other.
fn replay(rt: &HostRuntime) -> Result<(), Failure> {
    let alloc = rt.alloc();
    let mut player = Player::new(alloc, rt.stdin(), rt.stdout())?;
    let mut stores = OwnedStores::new(alloc);
    let mut next = player.first()?;
    // A proved loop has to end, and nothing says that the input does. So it counts the analyzers, up to a number that no run reaches.
    // Kept: a loop of its own, see play (analyzers).
    for _ in 0..u64::MAX {
        let Some(asked) = next else {
            break;
        };
        next = analyzers::with_stores(&mut stores, &mut player, asked)?;
    }
    player.flush()
}

fn main(rt: HostRuntime) {
    if let Err(failure) = replay(&rt) {
        let _ = eprintln!(rt; "replay: {failure}");
    }
}
