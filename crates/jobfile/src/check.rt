// The check of all records before any call runs.
ghost use Rattle.std.specs.Prelude.{true, cond, ◌≡◌, ◌+◌, ◌*◌, ◌≤◌, leb, length};
ghost use Rattle.job.specs.Job.{is_malformed, read_calls, record_at};

use crate::head::{HEAD, RECORD};
use crate::records;

fn record_at(job: &[u8], i: usize) -> &[u8]
    requires { 7 + 16 * i + 16 ≤ length job.now }
    ensures { result.now ≡ record_at job.now i }
{
    let from = HEAD + RECORD * i;
    &job[from..from + RECORD]
}

// By the records' numbers: of `any` over their chunks a proof doesn't see that the closure's answers are those of the records.
fn malformed_among(job: &[u8], count: u32) -> bool
    requires { 7 + 16 * count ≤ length job.now }
    ensures { result ≡ is_malformed (read_calls job.now 0 count) }
{
    for i in 0..count as usize {
        if records::record_call(record_at(job, i)).is_none() {
            return true;
        }
    }
    false
}

// Refusal 5: the first malformed record ends the check. A job without all of its records has a malformed one.
pub fn any_malformed(job: &[u8], count: u32) -> bool
    ensures { result ≡ cond (leb (7 + 16 * count) (length job.now)) (is_malformed (read_calls job.now 0 count)) true }
{
    if HEAD + RECORD * (count as usize) <= job.len() {
        return malformed_among(job, count);
    }
    true
}
