// A job on the part that `rehearse` starts from (document 01, "The job file"), with its answers or its refusal on standard output.
#![tactic(auto)]

ghost use Rattle.std.specs.Prelude.{◌≡◌, IfOk, replicate};
ghost use Rattle.job.specs.Rehearsal.{rehearsed};

use std::io;

// Lines are collected, and this many are written at once.
const PIECE: usize = 100;

// The longest job has this many answers.
const MOST_CALLS: usize = 2_000;

fn print_answers(rt: &impl Print, answers: &[u8]) -> io::Result<()> {
    let mut text = [0u8; 2000];
    for piece in answers.chunks(PIECE * lines::ANSWER) {
        let end = lines::put_lines(&mut text, piece, piece.len() / lines::ANSWER);
        rt.write_all(&text[..end])?;
    }
    Ok(())
}

// A job on that part: n = 4, main flash and OTP FF, options FF but RDP AA, the backup SRAM 0, 1,000 microseconds for everything; its scrap is
// 65,536 bytes FF. The result is the job run's number, as C has it, and the answers stand in the buffer.
fn run(job: &[u8], answers: &mut [u8]) -> u32
    ensures { (result ≡ (rehearsed job.now answers.old).result)
        × (answers.new ≡ (rehearsed job.now answers.old).answers) }
{
    let mut main = [255u8; 65536];
    let mut otp = [255u8; 528];
    let mut options = [255u8; 16];
    options[1] = 0xAA;
    let mut sram = [0u8; 4096];
    let timings = [1_000u32.to_le_bytes(); 24];
    let scrap = [255u8; 65536];
    flash_job::flash_job_run(
        &mut main,
        &mut otp,
        &mut options,
        &mut sram,
        timings.as_flattened(),
        &scrap,
        job,
        answers,
    )
}

// The result is the job run's, in a buffer for the answers of the longest job. An error is the output's: the job was run to its end, and of what
// it printed a part may be missing. Nothing else of it outlives the call.
pub fn rehearse(rt: &impl Print, job: &[u8]) -> io::Result<u32>
    ensures { IfOk result (λ r. r ≡ (rehearsed job.now (replicate 32_000 0)).result) }
{
    let mut answers = [0u8; 32000];
    let refusal = run(job, &mut answers);
    if refusal != 0 {
        println!(rt; "refused {refusal}")?;
        return Ok(refusal);
    }
    let count = MOST_CALLS.min(jobfile::head::count_of(job) as usize);
    print_answers(rt, &answers[..lines::ANSWER * count])?;
    Ok(0)
}
