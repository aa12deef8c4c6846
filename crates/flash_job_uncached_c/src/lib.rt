// The job run on the part without caches for a host in C: the archive of include/flash_job.h's `flash_job_run_uncached`.
#![tactic(auto)]

ghost use Rattle.std.specs.Prelude.{◌≡◌};
ghost use Rattle.job.specs.Job.{job_left, run_uncached};
ghost use Rattle.part.specs.State.{part, fresh};

// Runs a job on the lent part, as `flash_job_uncached::flash_job_run_uncached` does.
#[unsafe(no_mangle)]
pub extern "C" fn flash_job_run_uncached(
    main: &mut [u8],
    otp: &mut [u8],
    options: &mut [u8],
    sram: &mut [u8],
    timings: &[u8],
    scrap: &[u8],
    job: &[u8],
    answers: &mut [u8],
) -> u32
    ensures { job_left result main.new otp.new options.new sram.new answers.new
        ≡ run_uncached (part fresh main.old otp.old options.old sram.old)
        timings.now scrap.now job.now answers.old }
{
    flash_job_uncached::flash_job_run_uncached(
        main, otp, options, sram, timings, scrap, job, answers,
    )
}
