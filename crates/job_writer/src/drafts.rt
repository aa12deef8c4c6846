// The writer over a lent buffer: begin, append, close. A refusal leaves the buffer and the writer as they were.
ghost use Rattle.std.specs.Prelude.{◌≡◌, Err};
ghost use Rattle.writer.specs.Writer.{draft, replied, begun, appended_fields, appended, closed};

use job::Fields;
use jobfile::head::{HEAD, LONGEST, RECORD};
use jobfile::{head, records};
use part::Call;
use writer::{Refused, WriteRefusal, Writer};

fn refuse(why: WriteRefusal, writer: Writer) -> Result<Writer, Refused>
    ensures { result ≡ Err (record { why = why; writer = writer }) }
{
    Err(Refused { why, writer })
}

// A head with a count of 0. A refused begin has the writer of no calls.
pub fn begin(buffer: &mut [u8]) -> Result<Writer, Refused>
    ensures { replied result buffer.new ≡ begun buffer.old }
{
    let w = Writer { count: 0 };
    if buffer.len() < HEAD {
        return refuse(WriteRefusal::NoRoom, w);
    }
    head::put_head(buffer);
    Ok(w)
}

// The record of these fields behind the last one. The head stays, so that until it is closed the job is refused.
pub(crate) fn append_fields(buffer: &mut [u8], w: Writer, f: Fields) -> Result<Writer, Refused>
    ensures { replied result buffer.new ≡ appended_fields f (draft w buffer.old) }
{
    if job_fields::malformed_fields(f) {
        return refuse(WriteRefusal::Malformed, w);
    }
    let n = w.count;
    if LONGEST <= n {
        return refuse(WriteRefusal::NoRoom, w);
    }
    let from = HEAD + RECORD * (n as usize);
    let to = from + RECORD;
    if buffer.len() < to {
        return refuse(WriteRefusal::NoRoom, w);
    }
    records::put_record(&mut buffer[from..to], f);
    Ok(Writer { count: n + 1 })
}

// One call, by its fields. One that no record holds is malformed.
pub fn append(buffer: &mut [u8], w: Writer, c: Call) -> Result<Writer, Refused>
    ensures { replied result buffer.new ≡ appended c (draft w buffer.old) }
{
    match job_fields::fields_of(c) {
        Some(f) => append_fields(buffer, w, f),
        None => refuse(WriteRefusal::Malformed, w),
    }
}

// The count of what was appended. More may be appended afterwards, and closed again.
pub fn close(buffer: &mut [u8], w: Writer) -> Result<Writer, Refused>
    ensures { replied result buffer.new ≡ closed (draft w buffer.old) }
{
    let n = w.count;
    if (buffer.len() < HEAD) | (LONGEST < n) {
        return refuse(WriteRefusal::NoRoom, w);
    }
    head::put_count(buffer, n);
    Ok(w)
}
