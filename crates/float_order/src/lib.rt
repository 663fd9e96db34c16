// Laws on floats alone, for the crates whose proofs compare distances: no function. The definitions are in specs/, the laws in proofs/.

#![tactic(auto)]
