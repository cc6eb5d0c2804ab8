// Going through a list until a member breaks a rule.
#![tactic(auto)]
