// Why words are not two programs in range.
ghost use Rattle.std.specs.Prelude.{◌≡◌, length, Some};
ghost use Rattle.reader.specs.Texts.{reason_text, refusal_text};

use std::fmt;

// What was met first, reading from the left.
#[derive(Clone, Copy, PartialEq, Eq, Debug)]
pub enum Reason {
    TooLong,
    Ended,
    NoCode,
    OutOfRange,
    TooDeep,
    TooManySteps,
    LeftOver,
}

// A reason, and the index of the word at which it was met; the number of words where they ended too soon.
#[derive(Clone, Copy, PartialEq, Eq, Debug)]
pub struct Refusal {
    pub reason: Reason,
    pub at: usize,
}

// The same inside a part of the words: a reason, and how many words are left, that at which it was met included.
// A type of its own, so that a number of words left is not taken for an index; and no slice, as in `Pair`.
#[derive(Clone, Copy)]
pub struct Fault {
    pub reason: Reason,
    pub left: usize,
}

impl Fault {
    // The reason, met at the first of these words.
    pub(crate) fn at(reason: Reason, words: &[u32]) -> Fault
        ensures { result ≡ record { reason = reason; left = length words.now } }
    {
        Fault {
            reason,
            left: words.len(),
        }
    }
}

impl Reason {
    // The reason in words; this can't fail, as writing it may.
    pub fn text(self) -> &'static str
        ensures { result.now ≡ reason_text self }
    {
        match self {
            Reason::TooLong => "too long",
            Reason::Ended => "ended inside a program",
            Reason::NoCode => "no code",
            Reason::OutOfRange => "number out of range",
            Reason::TooDeep => "too deep",
            Reason::TooManySteps => "too many steps",
            Reason::LeftOver => "words left over",
        }
    }
}

impl fmt::Display for Reason {
    ghost output = { λ r. Some (reason_text r) };

    fn fmt<W: fmt::Write>(&self, f: &mut fmt::Formatter<W>) -> fmt::Result {
        f.write_str(self.text())
    }
}

impl fmt::Display for Refusal {
    ghost output = { λ r. Some (refusal_text r) };

    fn fmt<W: fmt::Write>(&self, f: &mut fmt::Formatter<W>) -> fmt::Result {
        write!(f, "{}, at word {}", self.reason, self.at)
    }
}
