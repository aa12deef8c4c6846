// The part's record, what its registers read, what its answers are numbered and which accesses are malformed or misaligned (document 01, "Calls").
// Every function is total, and each contract is one equation with the definition of the same name in part's specs.
#![tactic(auto)]

pub mod answers;
pub mod fields;
pub mod readout;
pub mod refusals;
mod renewal;
pub mod width;
