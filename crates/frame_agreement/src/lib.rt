// Two accepted frames that differ only in the order of their corner lines: laws alone, no function. The definitions are in specs/, the laws in
// proofs/.

#![tactic(auto)]
