// Reads a program as an automaton. Each word is read once. The calls of the reader nest at most 66 deep, each with less
// than a kilobyte of stack.
ghost use Rattle.std.specs.Prelude.{MatchResult};
ghost use Rattle.automaton.specs.Reading.{OneReading, ProgramRead, Unread};

use crate::automata::Automaton;
use crate::tables::Tables;
use reader::{Fault, MAX_DEPTH, read_program};

impl Automaton {
    // The automaton of the program that the words begin with, and what follows it.
    #[tactic(auto, using(crate::proofs::OneReading::one_reading))]
    pub fn read(words: &[u32]) -> Result<(Automaton, &[u32]), Fault>
        ensures answer { MatchResult result (λ x. ProgramRead words.now x.0 x.1.now) (Unread words.now) }
        ensures exact { OneReading }
    {
        let mut tables = Tables::new();
        let (beginning, rest) = read_program(&mut tables, words, MAX_DEPTH)?;
        let at = tables.end.number as usize;
        tables.rows[at] = beginning.row;
        Ok((Automaton { tables }, rest))
    }
}
