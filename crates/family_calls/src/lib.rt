// What calls of the size query and of the count show, whoever makes them.
#![tactic(auto)]
