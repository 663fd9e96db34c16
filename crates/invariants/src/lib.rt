// What stays true of the sheet over every pass and every list of calls: laws alone, no function. The definitions are in specs/, the laws in proofs/.

#![tactic(auto)]
