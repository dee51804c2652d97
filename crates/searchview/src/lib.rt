// The search in theory; no code.
#![tactic(auto)]
