// An answer record: code, seven zeros, value. The first half is the code as a number of 64 bits.
ghost use Rattle.std.specs.Prelude.{cond, ◌≡◌, eqb, length};
ghost use Rattle.job.specs.Job.{answer_bytes};

use part::Answer;
use record::answers;

// Into a part of 16 bytes; a part of another length is left alone.
pub fn put_answer(s: &mut [u8], answer: Answer)
    ensures { s.new ≡ cond (eqb (length s.old) 16) (answer_bytes answer) s.old }
{
    let code = answers::code_of(answer);
    let value = answers::value_of(answer);
    if s.len() == 16 {
        cells::store(s, 0, 8, code as u64);
        cells::store(s, 8, 8, value);
    }
}
