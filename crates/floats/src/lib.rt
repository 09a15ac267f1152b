// What each operation on floats gives, by definitions that compute (specs/), and the laws of rounding (proofs/), which every layer above cites. There
// is no code here: crates `numbers` and `roots` have it.
#![tactic(auto)]
