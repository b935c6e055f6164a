// Reads a test, and a program, to its end, and makes it into what is wanted.
// Words and depth are no struct: at each level the depth is one less, and behind it what it was, while the words go on.
ghost use Rattle.std.specs.Result.{MatchResult};
ghost use Rattle.reader.specs.Heads.{HeadIn};
ghost use Rattle.reader.specs.Parts.{HeadFault, ProgramAs, ProgramFault, TestAs, TestFault};

use crate::builders::{Builder, TestValue};
use crate::heads::{Head, TestHead, head_of, test_head_of};
use crate::refusals::Fault;

// What the test is made into that the words begin with, and what follows it, where there is room for so many levels.
pub fn read_test<T: TestValue>(words: &[u32], depth: u32) -> Result<(T, &[u32]), Fault>
    ensures { MatchResult result (λ x. TestAs (T.made_of x.0) depth words.now x.1.now) (TestFault depth words.now) }
{
    let (head, rest) = test_head_of(words, depth)?;
    match head {
        TestHead::Always => Ok((T::always(), rest)),
        TestHead::Never => Ok((T::never(), rest)),
        TestHead::Test(n) => Ok((T::test(n), rest)),
        TestHead::Both | TestHead::Any => {
            let (one, second) = read_test::<T>(rest, depth - 1)?;
            let (other, rest) = read_test(second, depth - 1)?;
            // both are read alike, and told apart when the parts are there
            let test = match head {
                TestHead::Both => one.both(other),
                _ => one.any(other),
            };
            Ok((test, rest))
        }
        TestHead::Opposite => {
            let (test, rest) = read_test::<T>(rest, depth - 1)?;
            Ok((test.opposite(), rest))
        }
    }
}

// The head that the words begin with, and what follows it, where there is room for it.
fn head_within<'a, B: Builder>(
    builder: &B,
    words: &'a [u32],
    depth: u32,
) -> Result<(Head, &'a [u32]), Fault>
    ensures { MatchResult result (λ x. HeadIn depth (B.room_of builder.now) words.now x.0 x.1.now) (HeadFault depth (B.room_of builder.now) words.now) }
{
    head_of(words, depth, builder.room())
}

// Adds the program that the words begin with, where there is room for so many levels. Gives what it is made into, and
// what follows it; where it is refused, the builder holds parts of it and is of no more use.
pub fn read_program<'a, B: Builder>(
    builder: &mut B,
    words: &'a [u32],
    depth: u32,
) -> Result<(B::Part, &'a [u32]), Fault>
    ensures { MatchResult result (λ x. ProgramAs (λ p. B.added builder.old p builder.new x.0) depth (B.room_of builder.old) words.now x.1.now) (ProgramFault depth (B.room_of builder.old) words.now) }
{
    let (head, rest) = head_within(builder, words, depth)?;
    match head {
        Head::Guard => {
            let (test, rest) = read_test::<B::Test>(rest, depth)?;
            Ok((builder.guard(test), rest))
        }
        Head::Step(step) => Ok((builder.step(step), rest)),
        Head::Sequence | Head::Choice => {
            let (one, second) = read_program(builder, rest, depth - 1)?;
            let (other, rest) = read_program(builder, second, depth - 1)?;
            // both are read alike, and told apart when the parts are there
            let part = match head {
                Head::Sequence => builder.sequence(one, other),
                _ => builder.choice(one, other),
            };
            Ok((part, rest))
        }
        Head::Star => {
            let (once, rest) = read_program(builder, rest, depth - 1)?;
            Ok((builder.star(once), rest))
        }
    }
}
