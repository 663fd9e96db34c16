// A frame read from a text and printed, what an accepted frame starts, and what bare grow means: laws alone, no function. The definitions are in
// specs/ and in the crate frame, the laws in proofs/.

#![tactic(auto)]
