// The job writer for a host in C: the archive of include/job_writer.h. The host counts the appends that are done.
#![tactic(auto)]

ghost use Rattle.std.specs.Prelude.{◌≡◌};
ghost use Rattle.job.specs.Record.{fields};
ghost use Rattle.writer.specs.Writer.{draft, wrote, counting, begun, appended_fields, closed};
ghost use Rattle.writer.specs.Writer.{writer as Writer·writer};

#[unsafe(no_mangle)]
pub extern "C" fn flash_job_begin(buffer: &mut [u8]) -> u32
    ensures { wrote result (Writer·writer 0) buffer.new ≡ begun buffer.old }
{
    job_writer::flash_job_begin(buffer)
}

#[unsafe(no_mangle)]
pub extern "C" fn flash_job_append(
    buffer: &mut [u8],
    count: u32,
    kind: u32,
    who: u32,
    width: u32,
    number: u32,
    value: u64,
) -> u32
    ensures { wrote result (counting result count) buffer.new
        ≡ appended_fields (fields kind who width 0 number value) (draft (Writer·writer count) buffer.old) }
{
    job_writer::flash_job_append(buffer, count, kind, who, width, number, value)
}

#[unsafe(no_mangle)]
pub extern "C" fn flash_job_close(buffer: &mut [u8], count: u32) -> u32
    ensures { wrote result (Writer·writer count) buffer.new ≡ closed (draft (Writer·writer count) buffer.old) }
{
    job_writer::flash_job_close(buffer, count)
}
