// What a line of an assembly says: its label, and what stands behind it.
#![tactic(auto)]

// Lines by the places of their parts.
pub mod bodies;
// What a line says.
pub mod lines;
// How many bytes a line has.
pub mod sizes;
