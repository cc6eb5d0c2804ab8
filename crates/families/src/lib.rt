// Families by declared parents.
#![tactic(auto)]
