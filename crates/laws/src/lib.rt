// General laws stand in specs/: each is stated once, and cited. There is no code here.
#![tactic(auto)]
