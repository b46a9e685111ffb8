// The text of an assembly: tokens, constants, and sums with what they are worth.
#![tactic(auto)]

// What characters are.
pub mod characters;
// The tokens of a line, by their places in the text.
pub mod tokens;
// Constants.
mod constants;
// Whether tokens are a sum.
pub mod sums;
// Labels, by the places of their names in the text.
pub mod labels;
// What a sum is worth.
pub mod values;
