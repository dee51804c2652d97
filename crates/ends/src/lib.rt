// What the ends of pads say of the lines between them: theory only, in specs/.
#![tactic(auto)]
