// A run with a limit and room, for every engine: theory only, in specs/ and proofs/.
#![tactic(auto)]
