// The lent tables and what they show, as definitions in specs/ and laws of them in proofs/.
#![tactic(auto)]
