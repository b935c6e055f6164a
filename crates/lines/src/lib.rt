// Lines of decimal numbers, read byte by byte: a line may be as long as it likes, and needs no more memory than its numbers.
#![tactic(auto)]

ghost use Rattle.std.specs.Prelude.{◌≡◌, ℕ, List, [], ◌∷◌, ◌++◌, MatchResult, OnErr, ◌==◌};
ghost use Rattle.lines.specs.Scanning.{Complete, Fresh, HasRead, LineRead, NeedsMemory, Pushed, Same, StoppedAt, number_ended, state_after};

use std::alloc::{AllocError, Global};
use std::marker::Model;

// Why a line is not one of numbers.
#[derive(Clone, Copy, PartialEq, Eq, Debug)]
pub enum Fault {
    NotNumber,
    TooLarge,
    TooMany,
}

// The byte at which reading stopped, counted from 1, and why.
// A type of its own, so that a column is not taken for the index of a word.
#[derive(Clone, Copy, PartialEq, Eq, Debug)]
pub struct Stop {
    pub fault: Fault,
    pub column: usize,
}

// Where reading stands: between numbers, in one that is worth so much, or where it stopped.
// As a `Result` of an `Option` it was slower than plain Rust, and as this it is faster.
#[derive(Clone, Copy)]
pub enum State {
    Gap,
    Number(u32),
    Stopped(Fault),
}

impl State {
    // Where it stands after one byte more, and the number that has ended with it, if one has; there may be no room for that.
    fn after(self, byte: u8) -> (State, Option<u32>)
        ensures { result ≡ (state_after self byte, number_ended self byte) }
    {
        // reading stops in one place: with a stop in each arm, every digit that fits takes longer
        let fault = match (self, byte) {
            (State::Stopped(fault), _) => fault,
            (State::Gap, b' ' | b'\t' | b'\r' | b'\n') => return (State::Gap, None),
            (State::Number(n), b' ' | b'\t' | b'\r' | b'\n') => return (State::Gap, Some(n)),
            (State::Gap, b'0'..=b'9') => return (State::Number(u32::from(byte - b'0')), None),
            (State::Number(n), b'0'..=b'9') => {
                let grown = u64::from(n) * 10 + u64::from(byte - b'0');
                match u32::try_from(grown) {
                    Ok(n) => return (State::Number(n), None),
                    Err(_) => Fault::TooLarge,
                }
            }
            _ => Fault::NotNumber,
        };
        (State::Stopped(fault), None)
    }
}

// The numbers of a line, at most so many, as its bytes come.
#[derive(Drop)]
pub struct Line<const MOST: usize> {
    // the numbers that are complete
    numbers: Vec<u32>,
    state: State,
    // how many bytes came until reading stopped
    column: usize,
}

impl<const MOST: usize> Model for Line<MOST> {
    ghost use Rattle.std.specs.Prelude.{◌≤◌, vec_items, vec_capacity};
    ghost use Rattle.std.proofs.Common.{subst};
    ghost use Rattle.lines.specs.Scanning.{Reading};

    ghost Value = { Reading };

    ghost view = { λ l. record { scan = record { numbers = vec_items l.numbers; state = l.state }; column = l.column; capacity = vec_capacity l.numbers; within = subst (λ n. n ≤ vec_capacity l.numbers) l.numbers.ok.0 l.numbers.ok.1; small = l.numbers.small } };
}

impl<const MOST: usize> Line<MOST> {
    // A line with no byte yet.
    pub fn new(heap: Global) -> Self
        ensures { Fresh result }
    {
        Line {
            numbers: Vec::new(heap),
            state: State::Gap,
            column: 0,
        }
    }

    // One byte more; where there is no memory for a number, nothing changes.
    pub fn push(&mut self, byte: u8) -> Result<(), AllocError>
        ensures read { MatchResult result (λ _. Pushed MOST self.old byte self.new) (λ _. Same self.old self.new) }
        ensures no_memory { OnErr result (NeedsMemory MOST self.old byte) }
    {
        let column = match self.state {
            State::Stopped(_) => self.column,
            _ => self.column.saturating_add(1),
        };
        let (state, ended) = self.state.after(byte);
        self.state = match ended {
            None => state,
            Some(n) if self.numbers.len() < MOST => {
                // where there is no memory for it, the room stays as it was
                self.numbers.reserve(1)?;
                self.numbers.push_reserved(n);
                state
            }
            Some(_) => State::Stopped(Fault::TooMany),
        };
        self.column = column;
        Ok(())
    }

    // The numbers that are complete, or where reading stopped. After a newline these are the numbers of the line before it.
    pub fn numbers(&self) -> Result<&[u32], Stop>
        ensures value { MatchResult result (λ x. Complete self.now.scan x.now) (StoppedAt self.now) }
        ensures reads { (bs : List ℕ) → HasRead MOST (bs ++ 10 ∷ []) self.now → LineRead MOST bs result }
    {
        match self.state {
            State::Stopped(fault) => Err(Stop {
                fault,
                column: self.column,
            }),
            State::Gap | State::Number(_) => Ok(&self.numbers),
        }
    }

    // Whether no byte has come yet.
    pub fn is_empty(&self) -> bool
        ensures { result ≡ (self.now.column == 0) }
    {
        self.column == 0
    }

    // Forgets the bytes so far.
    pub fn clear(&mut self)
        ensures { Fresh self.new }
    {
        self.numbers.clear();
        self.state = State::Gap;
        self.column = 0;
    }
}

#[cfg(test)]
mod tests;
