// The search lists exactly the listed layouts: theory only, in specs/.
#![tactic(auto)]
