// Document 01's analyzer as a plain machine over lists: its definitions are in specs/, what holds of every run of it in proofs/. The layers
// above run it. Here are the two kinds that they share with it.
#![tactic(auto)]

ghost use Rattle.std.specs.Prelude.{◌≡◌, Some};
ghost use Rattle.std.specs.Fmt.{padded};
ghost use Rattle.machine.specs.Strokes.{direction_of};
ghost use Rattle.machine.specs.Names.{mark_letter, direction_word, starting_mark, direction_numbered};

use std::fmt;

// Mark of the source: D is a bottom, G a top.
#[derive(Clone, Copy, Debug, PartialEq, Eq)]
pub enum Mark {
    D,
    G,
}

// As the programs write it.
impl fmt::Display for Mark {
    ghost output = { λ m. Some (mark_letter m) };

    ghost styled_output = { λ m spec. Some (padded spec (mark_letter m)) };

    fn fmt<W: fmt::Write>(&self, f: &mut fmt::Formatter<W>) -> fmt::Result {
        f.pad(match self {
            Mark::D => "D",
            Mark::G => "G",
        })
    }
}

// Direction of the source: the way a stroke goes.
#[derive(Clone, Copy, Debug, PartialEq, Eq)]
pub enum Direction {
    Up,
    Down,
}

// As the programs write it.
impl fmt::Display for Direction {
    ghost output = { λ d. Some (direction_word d) };

    ghost styled_output = { λ d spec. Some (padded spec (direction_word d)) };

    fn fmt<W: fmt::Write>(&self, f: &mut fmt::Formatter<W>) -> fmt::Result {
        f.pad(match self {
            Direction::Up => "up",
            Direction::Down => "down",
        })
    }
}

// The way of a stroke that starts on a fractal of this mark.
impl From<Mark> for Direction {
    ghost from_gives = { λ m d. d ≡ direction_of m };

    #[tactic(auto, unfolding(crate::specs::Strokes::direction_of))]
    fn from(mark: Mark) -> Direction {
        match mark {
            Mark::D => Direction::Up,
            Mark::G => Direction::Down,
        }
    }
}

// The mark of the fractal that a stroke of this direction starts on.
impl From<Direction> for Mark {
    ghost from_gives = { λ d m. m ≡ starting_mark d };

    fn from(direction: Direction) -> Mark {
        match direction {
            Direction::Up => Mark::D,
            Direction::Down => Mark::G,
        }
    }
}

// A column of directions has numbers, 0 for up: `Direction::Up as usize`.
impl From<usize> for Direction {
    ghost from_gives = { λ n d. d ≡ direction_numbered n };

    fn from(number: usize) -> Direction {
        if number == Direction::Up as usize {
            Direction::Up
        } else {
            Direction::Down
        }
    }
}
