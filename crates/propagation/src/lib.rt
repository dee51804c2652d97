// What the board's calls keep and lose: theory only, in specs/ and proofs/.
#![tactic(auto)]
