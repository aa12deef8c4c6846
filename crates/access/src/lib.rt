// Read and write (document 01, "Calls"): what they answer and the record after them, for an access that is not malformed. A write to flash cells or to
// a register changes no cell: it starts an operation, whose end does. One to the backup SRAM stores at once.
#![tactic(auto)]

pub mod reads;
mod store;
pub mod writes;
