// The theory of the judge of a drawing. There is no code here: the statements and their proofs stand in specs/.
#![tactic(auto)]
