// Nobody draws better than the listed layouts: the theory of demand 3. There is no code here; everything stands in specs/ and proofs/.
#![tactic(auto)]
