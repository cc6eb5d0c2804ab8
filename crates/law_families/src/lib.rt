// Families by declared parents and by spans.
#![tactic(auto)]
