// Texts whose answers are worked out in a proof: 01's example, two that differ only in the order of their corner lines, two such with shades, and
// two that differ only in their grow line. Laws alone, no function. The texts and the claims are in specs/, the theorems in proofs/.

#![tactic(auto)]
