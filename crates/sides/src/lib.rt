// Near and far and what lasts over any tape are definitions, in specs/, and laws of them, in proofs/.
#![tactic(auto)]
