// How large the numbers of a pass line can get: laws alone, no function. The definitions are in specs/, the laws in proofs/.

#![tactic(auto)]
