// The rules of document 01 as definitions: grids, drawings, layouts, records. There is no code here; everything stands in specs/ and proofs/.
#![tactic(auto)]
