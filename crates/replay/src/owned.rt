// The program's own stores: columns that grow to the places an analyzer asks for, and stay for the next one. Taken anew for each analyzer, their memory would be
// asked for and handed back each time, which takes many times as long as what most analyzers do with it.
ghost use Rattle.std.specs.Prelude.{◌≤◌, OnOk, vec_len};

use std::alloc::{AllocError, Global};
use stores::{MergedColumnsMut, RawColumnsMut};
use strokes::{FractalColumnsMut, Rooms};

// A column of so many places, or of more, if it has them.
fn grow<T: Clone + Drop>(column: &mut Vec<T>, places: usize, blank: T) -> Result<(), AllocError>
    ensures { OnOk result (places ≤ vec_len column.new) }
{
    if column.len() < places {
        column.resize(places, blank)?;
    }
    Ok(())
}

// The first places of a column, as many as are asked for.
fn front<T>(column: &mut [T], places: usize) -> &mut [T] {
    let n = places.min(column.len());
    &mut column[..n]
}

#[derive(Drop)]
pub struct OwnedRaw {
    times: Vec<i64>,
    ids: Vec<i32>,
    prices: Vec<[f64; 6]>,
}

impl OwnedRaw {
    pub fn new(alloc: Global) -> Self {
        OwnedRaw {
            times: Vec::new(alloc),
            ids: Vec::new(alloc),
            prices: Vec::new(alloc),
        }
    }

    fn grow(&mut self, places: usize) -> Result<(), AllocError>
        ensures { OnOk result ((places ≤ vec_len self.new.times) × (places ≤ vec_len self.new.ids) × (places ≤ vec_len self.new.prices)) }
    {
        grow(&mut self.times, places, 0)?;
        grow(&mut self.ids, places, 0)?;
        grow(&mut self.prices, places, [0.0; 6])
    }

    pub fn lent(&mut self, places: usize) -> RawColumnsMut<'_> {
        RawColumnsMut {
            times: front(&mut self.times, places),
            ids: front(&mut self.ids, places),
            prices: front(&mut self.prices, places),
        }
    }
}

#[derive(Drop)]
pub struct OwnedMerged {
    times: Vec<i64>,
    ids: Vec<i32>,
    prices: Vec<[f64; 6]>,
    counts: Vec<usize>,
    elements: Vec<[i64; 101]>,
}

impl OwnedMerged {
    pub fn new(alloc: Global) -> Self {
        OwnedMerged {
            times: Vec::new(alloc),
            ids: Vec::new(alloc),
            prices: Vec::new(alloc),
            counts: Vec::new(alloc),
            elements: Vec::new(alloc),
        }
    }

    fn grow(&mut self, places: usize) -> Result<(), AllocError>
        ensures { OnOk result ((places ≤ vec_len self.new.times) × (places ≤ vec_len self.new.ids) × (places ≤ vec_len self.new.prices) × (places ≤ vec_len self.new.counts) × (places ≤ vec_len self.new.elements)) }
    {
        grow(&mut self.times, places, 0)?;
        grow(&mut self.ids, places, 0)?;
        grow(&mut self.prices, places, [0.0; 6])?;
        grow(&mut self.counts, places, 0)?;
        grow(&mut self.elements, places, [0; 101])
    }

    pub fn lent(&mut self, places: usize) -> MergedColumnsMut<'_> {
        MergedColumnsMut {
            times: front(&mut self.times, places),
            ids: front(&mut self.ids, places),
            prices: front(&mut self.prices, places),
            counts: front(&mut self.counts, places),
            elements: front(&mut self.elements, places),
        }
    }
}

#[derive(Drop)]
pub struct OwnedFractals {
    stamps: Vec<[i64; 6]>,
    prices: Vec<[f64; 18]>,
}

impl OwnedFractals {
    pub fn new(alloc: Global) -> Self {
        OwnedFractals {
            stamps: Vec::new(alloc),
            prices: Vec::new(alloc),
        }
    }

    fn grow(&mut self, places: usize) -> Result<(), AllocError>
        ensures { OnOk result ((places ≤ vec_len self.new.stamps) × (places ≤ vec_len self.new.prices)) }
    {
        grow(&mut self.stamps, places, [0; 6])?;
        grow(&mut self.prices, places, [0.0; 18])
    }

    pub fn lent(&mut self, places: usize) -> FractalColumnsMut<'_> {
        FractalColumnsMut {
            stamps: front(&mut self.stamps, places),
            prices: front(&mut self.prices, places),
        }
    }
}

// All of them.
#[derive(Drop)]
pub struct OwnedStores {
    pub raw: OwnedRaw,
    pub unfinished: OwnedMerged,
    pub strokes: OwnedMerged,
    pub fractals: OwnedFractals,
}

impl OwnedStores {
    pub fn new(alloc: Global) -> Self {
        OwnedStores {
            raw: OwnedRaw::new(alloc),
            unfinished: OwnedMerged::new(alloc),
            strokes: OwnedMerged::new(alloc),
            fractals: OwnedFractals::new(alloc),
        }
    }

    // Places for an analyzer that asks for these.
    pub fn grow(&mut self, rooms: Rooms) -> Result<(), AllocError>
        ensures raw { OnOk result ((rooms.raw ≤ vec_len self.new.raw.times) × (rooms.raw ≤ vec_len self.new.raw.ids) × (rooms.raw ≤ vec_len self.new.raw.prices)) }
        ensures unfinished { OnOk result ((rooms.unfinished ≤ vec_len self.new.unfinished.times) × (rooms.unfinished ≤ vec_len self.new.unfinished.ids) × (rooms.unfinished ≤ vec_len self.new.unfinished.prices) × (rooms.unfinished ≤ vec_len self.new.unfinished.counts) × (rooms.unfinished ≤ vec_len self.new.unfinished.elements)) }
        ensures strokes { OnOk result ((rooms.strokes ≤ vec_len self.new.strokes.times) × (rooms.strokes ≤ vec_len self.new.strokes.ids) × (rooms.strokes ≤ vec_len self.new.strokes.prices) × (rooms.strokes ≤ vec_len self.new.strokes.counts) × (rooms.strokes ≤ vec_len self.new.strokes.elements)) }
        ensures fractals { OnOk result ((rooms.strokes ≤ vec_len self.new.fractals.stamps) × (rooms.strokes ≤ vec_len self.new.fractals.prices)) }
    {
        self.raw.grow(rooms.raw)?;
        self.unfinished.grow(rooms.unfinished)?;
        self.strokes.grow(rooms.strokes)?;
        self.fractals.grow(rooms.strokes)
    }
}
