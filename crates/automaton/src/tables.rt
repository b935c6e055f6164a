// The tables of an automaton.
ghost use Rattle.std.specs.Prelude.{◌≤◌};
ghost use Rattle.kat.specs.Programs.{max_steps};

use crate::rows::Row;
use reader::{MAX_STEPS, STEPS};

// A step as it is written in a program, numbered from 0; or the end of these.
#[derive(Clone, Copy)]
pub(crate) struct Place {
    pub number: u32,
    ghost within: { number ≤ max_steps },
}

// A row for each place that there may be, and one for the beginning.
pub(crate) const ROWS: usize = MAX_STEPS as usize + 1;

// A set of places for each step.
pub(crate) const STEP_SETS: usize = STEPS as usize;

// What there is of an automaton, in 920 bytes: fixed arrays, so that nothing is allocated.
#[derive(Drop)]
pub(crate) struct Tables {
    // Behind the last place.
    pub end: Place,
    // What may come next past each place; the row at the end is that of the beginning, and those behind it mean nothing.
    pub rows: [Row; ROWS],
    // The places that have each step, as a bit for each place.
    pub labelled: [u32; STEP_SETS],
}

// The places of a part of a program: the first of them, and what may come at the part's beginning.
#[derive(Drop)]
pub(crate) struct Part {
    pub from: Place,
    pub row: Row,
}
