// The router depends on the codes of a grid only by which pads carry equal codes: theory only, in specs/ and proofs/.
#![tactic(auto)]
