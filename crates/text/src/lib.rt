// What the tape program and the tree program print, as definitions in specs/.
#![tactic(auto)]
