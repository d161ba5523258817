// Mathematics alone: the definitions are in specs/, the laws in proofs/.
#![tactic(auto)]
