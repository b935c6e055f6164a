// Kleene algebra with tests: the definitions in specs/, and the theory above them, proved in proofs/.
#![tactic(auto)]

ghost use Rattle.kat.specs.Examples.{Examples};
ghost use Rattle.kat.specs.Theory.{Theory};

// Does nothing: it is here so that its contract asks for the proofs.
pub fn theory_holds()
    ensures theory { Theory }
    ensures examples { Examples }
{}
