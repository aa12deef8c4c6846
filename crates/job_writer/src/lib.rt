// The job writer (document 02, note 1). Its caller counts the appends that are done; nothing else has to be kept between calls. The three functions
// answer by number, for C.
#![tactic(auto)]

ghost use Rattle.std.specs.Prelude.{◌≡◌};
ghost use Rattle.job.specs.Record.{fields};
ghost use Rattle.writer.specs.Writer.{code_of, draft, wrote, counting, begun, appended_fields, closed};
ghost use Rattle.writer.specs.Writer.{writer as Writer·writer};

use job::Fields;
use writer::{Refused, Writer};

pub mod drafts;

// 0, or the number of the refusal.
fn code_of(reply: Result<Writer, Refused>) -> u32
    ensures { result ≡ code_of reply }
{
    match reply {
        Ok(_) => 0,
        Err(refused) => refused.why as u32,
    }
}

pub fn flash_job_begin(buffer: &mut [u8]) -> u32
    ensures { wrote result (Writer·writer 0) buffer.new ≡ begun buffer.old }
{
    code_of(drafts::begin(buffer))
}

pub fn flash_job_append(
    buffer: &mut [u8],
    count: u32,
    kind: u32,
    who: u32,
    width: u32,
    number: u32,
    value: u64,
) -> u32
    ensures { wrote result (counting result count) buffer.new
        ≡ appended_fields (fields kind who width 0 number value) (draft (Writer·writer count) buffer.old) }
{
    let f = Fields {
        kind,
        who,
        width,
        unused: 0,
        number,
        value,
    };
    code_of(drafts::append_fields(buffer, Writer { count }, f))
}

pub fn flash_job_close(buffer: &mut [u8], count: u32) -> u32
    ensures { wrote result (Writer·writer count) buffer.new ≡ closed (draft (Writer·writer count) buffer.old) }
{
    code_of(drafts::close(buffer, Writer { count }))
}
