// The life of an operation (document 01, "Time" and "Calls"): what starts it, or the flag that rises in its place; whether the lent buffers
// hold what it changes; time that passes over it; its end, or the cut of a reset before that, which change cells.
#![tactic(auto)]

pub mod cuts;
pub mod ends;
pub mod erases;
pub mod fits;
pub mod programs;
pub mod starts;
