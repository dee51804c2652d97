// The slow walk loses nothing and adds nothing. There is no code here: the statements and their proofs stand in specs/.
#![tactic(auto)]
