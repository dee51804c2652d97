// What a search promises: demands 2 and 3 together; which records it leaves; what the table of common copper tells. There is no code here;
// everything stands in specs/ and proofs/.
#![tactic(auto)]
