// The automaton of a program.
ghost use Rattle.kat.specs.Programs.{Program, InRange};
ghost use Rattle.kat.specs.Places.{automaton_of};
ghost use Rattle.automaton.specs.Tables.{Describe};

use crate::tables::Tables;

// The automaton of some program in range. Which it is, is not kept: a ghost field may state only what has one proof.
#[derive(Drop)]
pub struct Automaton {
    pub(crate) tables: Tables,
    ghost of_program: { ∥ ((p : Program) × InRange p × Describe tables (automaton_of p)) ∥₁ },
}
