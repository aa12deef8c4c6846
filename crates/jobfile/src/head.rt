// The head of a job: bytes FJB, version 1 (16 bits), count (16 bits).
ghost use Rattle.std.specs.Prelude.{◌≡◌};
ghost use Rattle.std.proofs.lemmas.List.Edits.{sets};
ghost use Rattle.cells.specs.Bytes.{bytes_of};
ghost use Rattle.job.specs.Job.{count_of, bad_head, head_bytes, bad_job_length};

use crate::bytes;

const MARK_0: u8 = 0x46;

const MARK_1: u8 = 0x4A;

const MARK_2: u8 = 0x42;

const VERSION: u32 = 1;

// The most calls of a job.
pub const LONGEST: u32 = 2_000;

// The bytes of the head, and of a record.
pub const HEAD: usize = 7;

pub const RECORD: usize = 16;

pub fn count_of(job: &[u8]) -> u32
    ensures { result ≡ count_of job.now }
{
    bytes::number_at(job, 5, 2)
}

// Refusal 3: fewer than 5 bytes, another mark or another version.
pub fn bad_head(job: &[u8]) -> bool
    ensures { result ≡ bad_head job.now }
{
    let a = cells::byte(job, 0);
    let b = cells::byte(job, 1);
    let c = cells::byte(job, 2);
    let version = bytes::number_at(job, 3, 2);
    (job.len() < 5) | !((a == MARK_0) & (b == MARK_1) & (c == MARK_2) & (version == VERSION))
}

// Refusal 4: a count above the most, or another length than its count asks for.
pub fn bad_job_length(job: &[u8]) -> bool
    ensures { result ≡ bad_job_length job.now }
{
    let count = count_of(job);
    (job.len() < HEAD) | (LONGEST < count) | (job.len() != HEAD + RECORD * (count as usize))
}

// The two bytes of the count.
pub fn put_count(job: &mut [u8], count: u32)
    ensures { job.new ≡ sets job.old 5 (bytes_of 2 count) }
{
    cells::store(job, 5, 2, count as u64);
}

// The head of a job of no calls.
pub fn put_head(job: &mut [u8])
    ensures { job.new ≡ sets job.old 0 (head_bytes 0) }
{
    cells::put(job, 0, MARK_0);
    cells::put(job, 1, MARK_1);
    cells::put(job, 2, MARK_2);
    cells::store(job, 3, 2, VERSION as u64);
    put_count(job, 0);
}
