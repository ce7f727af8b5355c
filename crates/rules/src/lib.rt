// The rules of the machine are definitions, in specs/, and laws of them, in proofs/. The code that keeps them stands above.
#![tactic(auto)]
