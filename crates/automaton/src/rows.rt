// What may come next from somewhere in a program.
ghost use Rattle.automaton.specs.Rows.{Ending, Joined, Led, Or, OrNothing, Starting, Then};

use crate::atoms::{ALL, ATOMS};
use crate::tables::Place;

// The atoms at which the program may end, as a bit for each, and at each atom the places that may come next, likewise.
#[derive(Clone, Copy, PartialEq, Eq, Debug)]
pub struct Row {
    pub ends: u32,
    pub next: [u32; ATOMS],
}

impl Row {
    // It may end at these atoms, and nothing comes next.
    pub(crate) fn ending(atoms: u32) -> Row
        ensures { Ending atoms result }
    {
        Row {
            ends: atoms,
            next: [0; ATOMS],
        }
    }

    // Only this place comes next, at every atom, and it may not end.
    pub(crate) fn starting(place: Place) -> Row
        ensures { Starting place.number result }
    {
        Row {
            ends: 0,
            next: [1u32 << place.number; ATOMS],
        }
    }

    // This or nothing: it may end at every atom.
    pub(crate) fn or_nothing(&self) -> Row
        ensures { OrNothing self.now result }
    {
        Row {
            ends: ALL,
            next: self.next,
        }
    }

    // This and, where it may end, the other.
    pub(crate) fn then(&self, other: &Row) -> Row
        ensures { Then self.now other.now result }
    {
        Row {
            ends: self.ends & other.ends,
            next: joined(&self.next, &other.next, self.ends),
        }
    }

    // This or the other.
    pub(crate) fn or(&self, other: &Row) -> Row
        ensures { Or self.now other.now result }
    {
        Row {
            ends: self.ends | other.ends,
            next: joined(&self.next, &other.next, ALL),
        }
    }
}

// The places of one at each atom and, at the atoms given, those of the other.
fn joined(one: &[u32; ATOMS], other: &[u32; ATOMS], atoms: u32) -> [u32; ATOMS]
    ensures { Joined one.now other.now atoms result }
{
    let mut all = *one;
    // the other is read by index: through a zip of both, the proof has no index to go by
    for (atom, places) in all.iter_mut().enumerate() {
        if (atoms >> atom) & 1 == 1 {
            *places |= other[atom];
        }
    }
    all
}

// Lets the next row follow each of the rows.
pub(crate) fn lead_all(rows: &mut [Row], next: &Row)
    ensures { Led rows.old next.now rows.new }
{
    for row in rows.iter_mut() {
        *row = row.then(next);
    }
}
