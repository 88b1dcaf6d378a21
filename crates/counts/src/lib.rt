// Facts about the definition that are computed over all versions stand in specs/. There is no code here.
#![tactic(auto)]
