// The refusals of a whole job, in the order 1, 2, 3, 4, 6, 5. Lengths are looked at first, so that timings and records are read at once.
ghost use Rattle.std.specs.Prelude.{◌≡◌, MatchResult};
ghost use Rattle.flash_job.specs.Refusals.{number_of};
ghost use Rattle.job.specs.Job.{bad_buffers, count_of, file_refusal};

use crate::JobRefusal;
use crate::run::ANSWER;
use jobfile::{check, head};

// Refusal 1. Nothing runs yet, so no target lies outside.
pub(crate) fn bad_buffers(
    main: usize,
    otp: usize,
    options: usize,
    sram: usize,
    timings: usize,
) -> bool
    ensures { result ≡ bad_buffers main otp options sram timings }
{
    let cells = operations::fits::bad_length(None, main, otp, options, sram, 24);
    cells | (timings != 96)
}

// The first of 3, 4, 6 and 5 that applies, or the number of calls. The records are looked at last, one by one.
pub(crate) fn checked_count(job: &[u8], room: usize) -> Result<u32, JobRefusal>
    ensures { MatchResult result (λ count. (file_refusal job.now room ≡ 0) × (count ≡ count_of job.now))
        (λ why. number_of why ≡ file_refusal job.now room) }
{
    if head::bad_head(job) {
        return Err(JobRefusal::BadHead);
    }
    if head::bad_job_length(job) {
        return Err(JobRefusal::BadJobLength);
    }
    let count = head::count_of(job);
    if room < ANSWER * (count as usize) {
        return Err(JobRefusal::NoRoom);
    }
    if check::any_malformed(job, count) {
        return Err(JobRefusal::Malformed);
    }
    Ok(count)
}
