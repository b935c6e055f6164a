// What a program, and a test, begins with.
ghost use Rattle.std.specs.Prelude.{◌≡◌, ◌<◌, [], ◌∷◌, length, MatchResult};
ghost use Rattle.reader.specs.declared.refusals.Reason.TheVariants.{Ended};
ghost use Rattle.reader.specs.Heads.{HeadIn, TestHeadIn};
ghost use Rattle.reader.specs.Parts.{BadNumber, HeadFault, TestHeadFault};

use crate::refusals::{Fault, Reason};

// Tests have numbers below this.
pub const TESTS: u32 = 4;

// Steps have numbers below this.
pub const STEPS: u32 = 8;

// The number of a step.
#[derive(Clone, Copy)]
pub struct Step(pub u32);

// The beginning of a program. What follows is a test behind a guard, and one or two programs behind the last three.
#[derive(Clone, Copy)]
pub enum Head {
    Guard,
    Step(Step),
    Sequence,
    Choice,
    Star,
}

// The beginning of a test. What follows is one or two tests behind the last three.
#[derive(Clone, Copy)]
pub enum TestHead {
    Always,
    Never,
    Test(u32),
    Both,
    Any,
    Opposite,
}

// The first of the words, and what follows it.
fn word(words: &[u32]) -> Result<(u32, &[u32]), Fault>
    ensures { MatchResult result (λ x. words.now ≡ x.0 ∷ x.1.now) (λ f. (words.now ≡ []) × (f ≡ record { reason = Ended; left = length words.now })) }
{
    let Some((word, rest)) = words.split_first() else {
        return Err(Fault::at(Reason::Ended, words));
    };
    Ok((*word, rest))
}

// The number that the words begin with, below a limit, and what follows it.
fn number(words: &[u32], limit: u32) -> Result<(u32, &[u32]), Fault>
    ensures { MatchResult result (λ x. (words.now ≡ x.0 ∷ x.1.now) × (x.0 < limit)) (BadNumber limit words.now) }
{
    let (n, rest) = word(words)?;
    if n >= limit {
        return Err(Fault::at(Reason::OutOfRange, words));
    }
    Ok((n, rest))
}

// The head of the program that the words begin with, and what follows it, where there is room for so many levels and steps.
pub fn head_of(words: &[u32], depth: u32, steps: u32) -> Result<(Head, &[u32]), Fault>
    ensures { MatchResult result (λ x. HeadIn depth steps words.now x.0 x.1.now) (HeadFault depth steps words.now) }
{
    let (code, rest) = word(words)?;
    match code {
        0 => Ok((Head::Guard, rest)),
        1 => {
            if steps == 0 {
                return Err(Fault::at(Reason::TooManySteps, words));
            }
            let (n, rest) = number(rest, STEPS)?;
            Ok((Head::Step(Step(n)), rest))
        }
        2..=4 => {
            if depth == 0 {
                return Err(Fault::at(Reason::TooDeep, words));
            }
            match code {
                2 => Ok((Head::Sequence, rest)),
                3 => Ok((Head::Choice, rest)),
                _ => Ok((Head::Star, rest)),
            }
        }
        _ => Err(Fault::at(Reason::NoCode, words)),
    }
}

// The head of the test that the words begin with, and what follows it, where there is room for so many levels.
// Another grammar than that of programs, with other codes and parts and no steps: a generic head would hold both tables.
pub fn test_head_of(words: &[u32], depth: u32) -> Result<(TestHead, &[u32]), Fault>
    ensures { MatchResult result (λ x. TestHeadIn depth words.now x.0 x.1.now) (TestHeadFault depth words.now) }
{
    let (code, rest) = word(words)?;
    match code {
        0 => Ok((TestHead::Always, rest)),
        1 => Ok((TestHead::Never, rest)),
        2 => {
            let (n, rest) = number(rest, TESTS)?;
            Ok((TestHead::Test(n), rest))
        }
        3..=5 => {
            if depth == 0 {
                return Err(Fault::at(Reason::TooDeep, words));
            }
            match code {
                3 => Ok((TestHead::Both, rest)),
                4 => Ok((TestHead::Any, rest)),
                _ => Ok((TestHead::Opposite, rest)),
            }
        }
        _ => Err(Fault::at(Reason::NoCode, words)),
    }
}
