// What is answered to a line of words.
ghost use Rattle.std.specs.Prelude.{◌≡◌, ℕ, List, [], ◌∷◌, ◌++◌, Some};
ghost use Rattle.lines.specs.Scanning.{HasRead};
ghost use Rattle.compare.specs.declared.answers.Why.TheVariants as why;
ghost use Rattle.compare.specs.Answering.{AnswerTo, Answered, LineAnswered, why_of_stop, why_text};

use lines::{Fault, Line, Stop};
use reader::{MAX_WORDS, Refusal, TOO_LONG, read_pair};
use std::fmt;

// Why a line is no two programs: it has no words, its bytes are no numbers from some column on, or as the reader says.
#[derive(Clone, Copy)]
pub enum Why {
    Empty,
    NotNumber(usize),
    TooLarge(usize),
    Refused(Refusal),
}

// Two programs, or why there are none.
pub type Answer = Result<(), Why>;

impl From<Refusal> for Why {
    ghost from_gives = { λ r w. w ≡ why.Refused r };

    fn from(refusal: Refusal) -> Why {
        Why::Refused(refusal)
    }
}

// A line keeps as many numbers as two programs may have words, so that more of them are too many.
impl From<Stop> for Why {
    ghost from_gives = { λ s w. w ≡ why_of_stop s.fault s.column };

    fn from(stop: Stop) -> Why {
        match stop.fault {
            Fault::NotNumber => Why::NotNumber(stop.column),
            Fault::TooLarge => Why::TooLarge(stop.column),
            Fault::TooMany => Why::Refused(TOO_LONG),
        }
    }
}

// The answer to words.
pub fn answer_words(words: &[u32]) -> Answer
    ensures { Answered words.now result }
{
    if words.is_empty() {
        return Err(Why::Empty);
    }
    read_pair(words)?;
    Ok(())
}

// The answer to a line that was read to its end, the newline included.
pub fn answer_line(line: &Line<MAX_WORDS>) -> Answer
    ensures reason { LineAnswered line.now result }
    ensures answer { (bs : List ℕ) → HasRead MAX_WORDS (bs ++ 10 ∷ []) line.now → AnswerTo bs result }
{
    answer_words(line.numbers()?)
}

impl fmt::Display for Why {
    ghost output = { λ w. Some (why_text w) };

    fn fmt<W: fmt::Write>(&self, f: &mut fmt::Formatter<W>) -> fmt::Result {
        match *self {
            Why::Empty => write!(f, "an empty line"),
            Why::NotNumber(column) => write!(f, "not a number, at column {column}"),
            Why::TooLarge(column) => write!(f, "a number over 32 bits, at column {column}"),
            Why::Refused(refusal) => write!(f, "{refusal}"),
        }
    }
}
