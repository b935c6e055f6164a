// Two programs, one after the other.
ghost use Rattle.std.specs.Prelude.{◌≡◌, ◌≤◌, length, MatchResult};
ghost use Rattle.kat.specs.Programs.{steps};
ghost use Rattle.reader.specs.Reading.{IsPair, OneAnswer, Refused};
ghost use Rattle.reader.specs.Parts.{PairFault, ProgramAs, ProgramFault};

use crate::parts::read_program;
use crate::refusals::{Fault, Reason, Refusal};
use crate::room::Room;

// The most words that two programs may have.
pub const MAX_WORDS: usize = 4096;

// The most levels that a program may have.
pub const MAX_DEPTH: u32 = 64;

// The most steps that may be written in a program.
pub const MAX_STEPS: u32 = 12;

// Where the second of two programs begins, and how many steps are written in each.
// An index and no slice: words have one answer only, and slices that are equal may lie apart.
#[derive(Clone, Copy, PartialEq, Eq, Debug)]
pub struct Pair {
    pub second: usize,
    pub first_steps: u32,
    pub second_steps: u32,
}

// How many steps the program has that the words begin with, and what follows it.
fn steps_of(words: &[u32]) -> Result<(u32, &[u32]), Fault>
    ensures { MatchResult result (λ x. ProgramAs (λ p. x.0 ≡ steps p) MAX_DEPTH MAX_STEPS words.now x.1.now) (ProgramFault MAX_DEPTH MAX_STEPS words.now) }
{
    let mut room = Room { steps: MAX_STEPS };
    let (_, rest) = read_program(&mut room, words, MAX_DEPTH)?;
    Ok((MAX_STEPS - room.steps, rest))
}

// The two programs that words are, which are not too many.
fn two_programs(words: &[u32]) -> Result<Pair, Fault>
    requires { length words.now ≤ MAX_WORDS }
    ensures { MatchResult result (IsPair words.now) (PairFault words.now) }
{
    let (first_steps, second) = steps_of(words)?;
    let (second_steps, rest) = steps_of(second)?;
    if !rest.is_empty() {
        return Err(Fault::at(Reason::LeftOver, rest));
    }
    Ok(Pair {
        second: words.len() - second.len(),
        first_steps,
        second_steps,
    })
}

// What is told of too many words: the first that is too many.
pub const TOO_LONG: Refusal = Refusal {
    reason: Reason::TooLong,
    at: MAX_WORDS,
};

// The two programs in range that the words are, or why they are none.
#[tactic(auto, using(crate::proofs::OneAnswer::one_answer))]
pub fn read_pair(words: &[u32]) -> Result<Pair, Refusal>
    ensures answer { MatchResult result (IsPair words.now) (Refused words.now) }
    ensures exact { OneAnswer }
{
    if words.len() > MAX_WORDS {
        return Err(TOO_LONG);
    }
    two_programs(words).map_err(|fault| Refusal {
        reason: fault.reason,
        at: words.len() - fault.left,
    })
}
