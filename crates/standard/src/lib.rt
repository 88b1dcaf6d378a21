// The definition of a label stands in specs/, and what is computed of it in proofs/. There is no code here.
#![tactic(auto)]
