// Atoms: which tests hold, as a number with a bit for each test. Sets of atoms have a bit for each atom.
ghost use Rattle.automaton.specs.Atoms.{AtomsOf};

use reader::{TESTS, TestValue};

// How many atoms there are.
pub const ATOMS: usize = 1 << TESTS;

// All atoms.
pub(crate) const ALL: u32 = 0xffff;

// The atoms at which each test holds.
const HOLDS: [u32; TESTS as usize] = [0xaaaa, 0xcccc, 0xf0f0, 0xff00];

// The atoms at which a test holds.
#[derive(Drop)]
pub(crate) struct Atoms(pub u32);

impl TestValue for Atoms {
    ghost made_of = { λ m t. AtomsOf m.0 t };

    #[tactic(auto, using(crate::proofs::Masks::always_atoms))]
    fn always() -> Atoms {
        Atoms(ALL)
    }

    #[tactic(auto, using(crate::proofs::Masks::never_atoms))]
    fn never() -> Atoms {
        Atoms(0)
    }

    fn test(n: u32) -> Atoms {
        Atoms(HOLDS[n as usize])
    }

    fn both(self, other: Atoms) -> Atoms {
        Atoms(self.0 & other.0)
    }

    fn any(self, other: Atoms) -> Atoms {
        Atoms(self.0 | other.0)
    }

    fn opposite(self) -> Atoms {
        Atoms(self.0 ^ ALL)
    }
}
