// Numbers: operations on floats (docs/RULES.md, 'Numbers'). Each is total: every bit pattern has a defined answer. A `_bits` form goes from pattern
// to pattern and says a NaN's bits; the other forms go from float to float, for the layers above.
// They are not std's floor and round: the must-fail edits `floor_toward_zero`, `halves_to_even` and others edit these bodies.
#![tactic(auto)]

pub mod class;
pub mod convert;
pub mod order;
pub mod whole;
pub mod width;
