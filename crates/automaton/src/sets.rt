// Sets of places, as bits of a number: a bit for each place, and behind these one for the beginning.
ghost use Rattle.automaton.specs.Sets.{AcceptsAt, Begins, NextIs, RowFrom};

use crate::atoms::ATOMS;
use crate::automata::Automaton;
use crate::rows::Row;
use reader::{STEPS, Step};

impl Automaton {
    // The set of the beginning alone.
    pub fn beginning(&self) -> u32
        ensures { Begins self.now result }
    {
        1u32 << self.tables.end.number
    }

    // What may come next from somewhere in the set.
    pub fn row_of(&self, set: u32) -> Row
        ensures { RowFrom self.now set result }
    {
        let mut row = Row::ending(0);
        let places = self.tables.end.number as usize;
        for (bit, next) in self.tables.rows[..=places].iter().enumerate() {
            if (set >> bit) & 1 == 1 {
                row = row.or(next);
            }
        }
        row
    }

    // The atoms at which the set accepts, as a bit for each.
    pub fn accepts(&self, set: u32) -> u32
        ensures { AcceptsAt self.now set result }
    {
        self.row_of(set).ends
    }

    // The set that a letter leads to: the places that may come next at the atom and have the step. Who wants many letters
    // of one set takes its row once.
    pub fn next(&self, set: u32, atom: u32, step: Step) -> u32
        ensures { NextIs self.now set atom step.0 result }
    {
        if step.0 >= STEPS {
            return 0;
        }
        self.row_of(set).next[atom as usize % ATOMS] & self.tables.labelled[step.0 as usize]
    }
}
