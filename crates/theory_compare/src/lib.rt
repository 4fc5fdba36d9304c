// Comparing two query records, defined in specs/. There is no code.
#![tactic(auto)]
