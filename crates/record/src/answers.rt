// Document 01's number and value of an answer, and replies.
ghost use Rattle.std.specs.Prelude.{◌≡◌};
ghost use Rattle.part.specs.State.{code_of, value_of, reply, refuse};

use part::{Answer, Reason, Record, Reply};

pub fn code_of(answer: Answer) -> u32
    ensures { result ≡ code_of answer }
{
    match answer {
        Answer::Done(_) => 0,
        Answer::Refused(why) => why as u32,
        Answer::Flagged(_) => 17,
        Answer::Expired(_) => 18,
    }
}

pub fn value_of(answer: Answer) -> u64
    ensures { result ≡ value_of answer }
{
    match answer {
        Answer::Done(value) => value,
        Answer::Refused(_) => 0,
        Answer::Flagged(flag) => flag as u64,
        Answer::Expired(passed) => passed.0,
    }
}

// The record goes on as one made anew, for speed alone.
pub fn reply(answer: Answer, rec: Record) -> Reply
    ensures { result ≡ reply answer rec }
{
    Reply {
        answer,
        rec: crate::renewal::renewed(rec),
    }
}

pub fn refuse(why: Reason, rec: Record) -> Reply
    ensures { result ≡ refuse why rec }
{
    reply(Answer::Refused(why), rec)
}
