// How an engine's tally was lent before `tally::lent`, for every engine: theory only, in proofs/.
#![tactic(auto)]
