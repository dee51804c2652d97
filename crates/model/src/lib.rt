// What the calls do, as definitions that compute: boards, the search, the copper common to all layouts, the judge, the grid file, records,
// what is printed. There is no code here; everything stands in specs/ and proofs/.
#![tactic(auto)]
