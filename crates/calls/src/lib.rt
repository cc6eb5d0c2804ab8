// What calls of load and of the family query show, whoever makes them.
#![tactic(auto)]
