// Reads words as two programs in range, or says why they are none.
#![tactic(auto)]

mod builders;
mod heads;
mod pairs;
mod parts;
mod refusals;
mod room;

pub use builders::{Builder, TestValue};
pub use heads::{Head, STEPS, Step, TESTS, TestHead, head_of, test_head_of};
pub use pairs::{MAX_DEPTH, MAX_STEPS, MAX_WORDS, Pair, TOO_LONG, read_pair};
pub use parts::{read_program, read_test};
pub use refusals::{Fault, Reason, Refusal};

#[cfg(test)]
mod tests;
