// Lines in, answers out.
ghost use Rattle.std.specs.Prelude.{◌≡◌, OnOk, [], ◌∷◌, ◌++◌};
ghost use Rattle.std.specs.Io.KnownBytes.{Appends};
ghost use Rattle.compare.specs.declared.filter.Trouble.TheVariants.{Memory};
ghost use Rattle.compare.specs.Answering.{answer_text};

use crate::answers::{Answer, answer_line};
use lines::Line;
use reader::MAX_WORDS;
use std::alloc::{AllocError, Global};
use std::io;
use std::io::{BufRead, Write};

// What ended it early.
#[derive(Drop)]
pub enum Trouble {
    Input(io::Error),
    Output(io::Error),
    Memory,
}

impl From<AllocError> for Trouble {
    ghost from_gives = { λ _ t. t ≡ Memory };

    fn from(_e: AllocError) -> Trouble {
        Trouble::Memory
    }
}

// Writes an answer on a line of its own.
fn write_answer<W: Write>(answer: Answer, out: &mut W) -> io::Result<()>
    ensures { OnOk result (Appends (W.contents out.old) (W.contents out.new) (answer_text answer ++ 10 ∷ [])) }
{
    match answer {
        Ok(()) => writeln!(out, "two programs"),
        Err(why) => writeln!(out, "no programs: {why}"),
    }
}

// A line as far as it has come, and where its answer goes.
#[derive(Drop)]
struct Answering<'a, W> {
    line: Line<MAX_WORDS>,
    out: &'a mut W,
}

impl<W: Write> Answering<'_, W> {
    // Reads the next bytes, and answers each line that ends in them.
    fn answer_bytes(&mut self, bytes: &[u8]) -> Result<(), Trouble> {
        for byte in bytes {
            self.line.push(*byte)?;
            if *byte == b'\n' {
                write_answer(answer_line(&self.line), self.out).map_err(Trouble::Output)?;
                self.line.clear();
            }
        }
        self.out.flush().map_err(Trouble::Output)
    }

    // Goes on with as much of the input as there is at hand, and says how much that was: nothing at its end.
    fn answer_some<R: BufRead>(&mut self, input: &mut R) -> Result<usize, Trouble> {
        let bytes = input.fill_buf().map_err(Trouble::Input)?;
        let n = bytes.len();
        self.answer_bytes(bytes)?;
        input.consume(n);
        Ok(n)
    }
}

// Answers each line of the input, and writes the answers out before it waits for more input. It needs no more memory
// than the numbers of one line.
pub fn answer_lines<R: BufRead, W: Write>(
    input: &mut R,
    out: &mut W,
    heap: Global,
) -> Result<(), Trouble> {
    let mut answering = Answering {
        line: Line::new(heap),
        out,
    };
    // counted, since each loop is proved to end and nothing is known of how long the input is
    for _ in 0..u64::MAX {
        if answering.answer_some(input)? == 0 {
            break;
        }
    }
    // the last line may have no newline
    if answering.line.is_empty() {
        return Ok(());
    }
    answering.answer_bytes(b"\n")
}
