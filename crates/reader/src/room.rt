// Room for steps, from which each step of a program takes one; nothing else is made of programs, and nothing of tests.
ghost use Rattle.std.specs.Prelude.{◌≡◌, ◌+◌};
ghost use Rattle.kat.specs.Programs.{steps};

use crate::builders::{Builder, TestValue};
use crate::heads::Step;

#[derive(Drop)]
pub(crate) struct Room {
    pub steps: u32,
}

impl TestValue for () {
    ghost made_of = { λ x t. Unit {0} };

    fn always() {}

    fn never() {}

    fn test(_n: u32) {}

    fn both(self, _other: ()) {}

    fn any(self, _other: ()) {}

    fn opposite(self) {}
}

impl Builder for Room {
    type Test = ();

    type Part = ();

    ghost added = { λ old p new part. steps p + new.steps ≡ old.steps };

    ghost room_of = { λ r. r.steps };

    fn room(&self) -> u32 {
        self.steps
    }

    fn guard(&mut self, _test: ()) {}

    fn step(&mut self, _step: Step) {
        self.steps -= 1;
    }

    fn sequence(&mut self, _first: (), _next: ()) {}

    fn choice(&mut self, _one: (), _other: ()) {}

    fn star(&mut self, _once: ()) {}

    ghost steps_counted = { λ old new p part h. h };
}
