// Examples alone: what the definitions come to, computed by the prover. There is no code.
#![tactic(auto)]
