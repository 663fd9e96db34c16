// The order of the corners decides nothing, over every list of calls: laws alone, no function. The definitions are in specs/, the laws in proofs/.

#![tactic(auto)]
