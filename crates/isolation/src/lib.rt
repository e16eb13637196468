// Isolation: theorems over the definitions of `model`, and no code. specs/ says what is proved, proofs/ proves it.
#![tactic(auto)]
