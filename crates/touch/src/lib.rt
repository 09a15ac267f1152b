// When two copies touch (docs/RULES.md, 'Touch'; the Rust's `solute_mols_touch`): some pick of one and some pick of the other are at most the cutoff
// apart, by the minimum image (specs/Touch.antt). The search that runs is in crates `gates` and `spans`, behind this definition. Touch is
// symmetric (specs/Mirror.antt).
#![tactic(auto)]

// The Rust's cutoff for contacts, in angstrom, which the program `frame` uses.
pub const CUTOFF: f32 = 4.2;
