// An operation starts, or a flag rises in its place.
ghost use Rattle.std.specs.Prelude.{◌≡◌};
ghost use Rattle.part.specs.Operations.{flagged, started, flagged_or};

use part::{Answer, Record, Reply, Running, Target};
use record::{answers, fields};
use time::Micros;

// OPERR rises with every error flag while ERRIE is set.
pub fn flagged(r: Record, flag: u32) -> Reply
    ensures { result ≡ flagged r flag }
{
    let asked = registers::is_set(r.cr, registers::ERRIE);
    let operr = if asked { registers::OPERR } else { 0 };
    let next = fields::with_sr(r, r.sr | (flag | operr));
    answers::reply(Answer::Flagged(flag), next)
}

pub fn started(r: Record, target: Target, left: Micros) -> Reply
    ensures { result ≡ started r target left }
{
    let next = fields::with_op(r, Some(Running { target, left }));
    answers::reply(Answer::Done(0), next)
}

// There is no flag where nothing stops the operation.
pub fn flagged_or(r: Record, flag: Option<u32>, target: Target, left: Micros) -> Reply
    ensures { result ≡ flagged_or r flag target left }
{
    match flag {
        None => started(r, target, left),
        Some(flag) => flagged(r, flag),
    }
}
