// Proofs of the promises; no code. They are gathered in proofs/Demands.antt.
#![tactic(auto)]
