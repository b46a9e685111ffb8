// The machine's registers: two channels, the control block's address, the channel that stepped last and what the board
// set up, all by value.
#![tactic(auto)]

// The fields of PSW.
pub mod psw;
// CC taken apart.
pub mod cc;
// The registers of a channel by RRR, and the bases by MM.
pub mod registers;
// A channel with some of its registers changed.
pub mod updates;
// The held byte as a number.
pub mod holdings;
// A fresh state, a state after reset, a sound state, and its channels.
pub mod states;
