// What the passes do on a sheet with few written places, so that a run can be computed in a proof: laws alone, no function.
// The definitions are in specs/, the laws in proofs/.

#![tactic(auto)]
