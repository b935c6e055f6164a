// What tests and programs are made into while their words are read, from what their parts were made into.
ghost use Rattle.std.specs.Prelude.{◌≡◌, ℕ, ◌+◌, ◌<◌};
ghost use Rattle.kat.specs.Programs as terms;
ghost use Rattle.kat.specs.Programs.{Test, always, never, test, both, any, opposite, test_count, Program, guard, seq, choice, star, steps, step_count};

use crate::heads::Step;

// What a test is made into.
pub trait TestValue: Drop {
    // this is made of the test
    ghost made_of: { Self → Test → Type 0 };

    fn always() -> Self
        ensures { made_of result always };

    fn never() -> Self
        ensures { made_of result never };

    fn test(n: u32) -> Self
        requires { n < test_count }
        ensures { made_of result (test n) };

    fn both(self, other: Self) -> Self
        ensures { (s t : Test) → made_of self s → made_of other t → made_of result (both s t) };

    fn any(self, other: Self) -> Self
        ensures { (s t : Test) → made_of self s → made_of other t → made_of result (any s t) };

    fn opposite(self) -> Self
        ensures { (t : Test) → made_of self t → made_of result (opposite t) };
}

// What the parts of a program are added to.
pub trait Builder: Drop {
    type Test: TestValue;

    type Part: Drop;

    // from one to the other the program was added, and made into the part
    ghost added: { Self → Program → Self → Self.Part → Type 0 };

    // for how many steps there is room
    ghost room_of: { Self → ℕ };

    fn room(&self) -> u32
        ensures { result ≡ room_of self.now };

    fn guard(&mut self, test: Self::Test) -> Self::Part
        ensures { (t : Test) → Self.Test.made_of test t → added self.old (guard t) self.new result };

    fn step(&mut self, step: Step) -> Self::Part
        requires known { step.0 < step_count }
        requires room { 0 < room_of self.old }
        ensures { added self.old (terms.step step.0) self.new result };

    fn sequence(&mut self, first: Self::Part, next: Self::Part) -> Self::Part
        requires { (old mid : Self) × (p q : Program) × added old p mid first × added mid q self.old next }
        ensures { (old mid : Self) (p q : Program) → added old p mid first → added mid q self.old next → added old (seq p q) self.new result };

    fn choice(&mut self, one: Self::Part, other: Self::Part) -> Self::Part
        requires { (old mid : Self) × (p q : Program) × added old p mid one × added mid q self.old other }
        ensures { (old mid : Self) (p q : Program) → added old p mid one → added mid q self.old other → added old (choice p q) self.new result };

    fn star(&mut self, once: Self::Part) -> Self::Part
        requires { (old : Self) × (p : Program) × added old p self.old once }
        ensures { (old : Self) (p : Program) → added old p self.old once → added old (star p) self.new result };

    // each step takes its room
    ghost steps_counted: { (old new : Self) (p : Program) (part : Self.Part) → added old p new part → steps p + room_of new ≡ room_of old };
}
