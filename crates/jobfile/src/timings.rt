// The timings of a job: 96 bytes, as 24 numbers of 32 bits.
ghost use Rattle.std.specs.Prelude.{cond, ◌≡◌, eqb, length};
ghost use Rattle.job.specs.Job.{timings_of};

fn load(timings: &mut [u32], bytes: &[u8])
    requires { length timings.old ≡ 24 }
    ensures { timings.new ≡ timings_of bytes.now }
{
    for (i, timing) in timings.iter_mut().enumerate() {
        *timing = crate::bytes::number_at(bytes, 4 * (i as u32), 4);
    }
}

// Into a place for 24 numbers; a place of another length is left alone.
pub fn load_timings(timings: &mut [u32], bytes: &[u8])
    ensures { timings.new ≡ cond (eqb (length timings.old) 24) (timings_of bytes.now) timings.old }
{
    if timings.len() == 24 {
        load(timings, bytes);
    }
}
