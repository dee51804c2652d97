// Laws of reading and writing a grid file, about the model alone: everything stands in specs/ and proofs/.
#![tactic(auto)]
