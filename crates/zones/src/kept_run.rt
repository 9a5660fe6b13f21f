// A run of kept strokes, where their rows lie.
ghost use Rattle.strokes.specs.Columns.{fractals_in};
ghost use Rattle.zones.specs.Code.StrokesRead.{RunStands};

use strokes::{FractalColumns, Stand};

// A run of kept strokes that exists, named by its first place and its length.
#[derive(Clone, Copy)]
pub struct Run<'a> {
    pub stand: Stand,
    pub fractals: FractalColumns<'a>,
    pub first: usize,
    pub count: usize,
    ghost stands: { RunStands stand (fractals_in fractals) first count },
}
