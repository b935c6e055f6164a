// Builds the tables of an automaton from the parts of a program. A row is led on where something follows its place.
ghost use Rattle.std.specs.Prelude.{◌-◌, ◌≤◌};
ghost use Rattle.std.proofs.Common.{arith};
ghost use Rattle.kat.specs.Programs.{max_steps};
ghost use Rattle.automaton.specs.Building.{Empty, LedOn, PartAdded};

use crate::atoms::{ALL, Atoms};
use crate::rows::{Row, lead_all};
use crate::tables::{Part, Place, ROWS, STEP_SETS, Tables};
use reader::{Builder, MAX_STEPS, Step};

impl Tables {
    // Without places.
    pub(crate) fn new() -> Tables
        ensures { Empty result }
    {
        Tables {
            end: Place { number: 0 },
            rows: [Row::ending(0); ROWS],
            labelled: [0; STEP_SETS],
        }
    }

    // Lets the next row follow each place from `from` up to `to`, `to` left out.
    fn lead_on(&mut self, from: Place, to: Place, next: &Row)
        requires { from.number ≤ to.number }
        ensures { LedOn from.number to.number self.old next.now self.new }
    {
        let led = from.number as usize..to.number as usize;
        lead_all(&mut self.rows[led], next);
    }
}

impl Builder for Tables {
    type Test = Atoms;

    type Part = Part;

    ghost added = { PartAdded };

    ghost room_of = { λ m. max_steps - m.end.number };

    fn room(&self) -> u32 {
        MAX_STEPS - self.end.number
    }

    // A guard has no places.
    fn guard(&mut self, test: Atoms) -> Part {
        Part {
            from: self.end,
            row: Row::ending(test.0),
        }
    }

    // A step is a place: at every atom it may come first, and past it the program may end.
    fn step(&mut self, step: Step) -> Part {
        let place = self.end;
        self.rows[place.number as usize] = Row::ending(ALL);
        self.labelled[step.0 as usize] |= 1u32 << place.number;
        self.end.number += 1;
        Part {
            from: place,
            row: Row::starting(place),
        }
    }

    fn sequence(&mut self, first: Part, next: Part) -> Part {
        self.lead_on(first.from, next.from, &next.row);
        Part {
            from: first.from,
            row: first.row.then(&next.row),
        }
    }

    fn choice(&mut self, one: Part, other: Part) -> Part {
        Part {
            from: one.from,
            row: one.row.or(&other.row),
        }
    }

    fn star(&mut self, once: Part) -> Part {
        let again = once.row.or_nothing();
        self.lead_on(once.from, self.end, &again);
        Part {
            from: once.from,
            row: again,
        }
    }

    ghost steps_counted = { λ old new p part h. Prim.omega (arith, h.1.places_are, new.end.within) };
}
