// The bytes of a job file (document 01, "The job file"): its head, each 16-byte record as a part of the job, its timings, and answer records.
#![tactic(auto)]

pub mod answers;
mod bytes;
pub mod check;
pub mod head;
pub mod records;
pub mod timings;
