// The lines of the roles in every result, and what they add up to: laws alone, no function. The definitions are in specs/, the laws in proofs/.

#![tactic(auto)]
