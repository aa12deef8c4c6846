// Pass and wait, by one path.
#![tactic(auto)]

ghost use Rattle.std.specs.Prelude.{cond, ◌≡◌};
ghost use Rattle.cached.specs.Lines.{after_time};
ghost use Rattle.lined.specs.Lent.{lines_in, SameArrays};
ghost use Rattle.lined.specs.Ready.{OperationSmall};
ghost use Rattle.part.specs.Lent.{part_of, leaving_in, SameBuffers};
ghost use Rattle.part.specs.Passing.{too_long, lapse_time, lapse_answer, lapsed};

use lined::lent::Lines;
use part::{Answer, CellsMut, Lapse, Reason, Record, Reply};
use record::answers;
use time::Micros;

// Refusal 8.
fn too_long(t: Lapse) -> bool
    ensures { result ≡ too_long t }
{
    match t {
        Lapse::Pass(time) => time::LONGEST_PASS < time.0,
        Lapse::Wait(limit) => time::LONGEST_WAIT < limit.0,
    }
}

// A wait ends with the operation where its limit allows that; else, and in a pass, all of it passes.
fn lapse_time(t: Lapse, left: Micros) -> Micros
    ensures { result ≡ lapse_time t left }
{
    match t {
        Lapse::Pass(time) => time,
        Lapse::Wait(limit) => Micros(left.0.min(limit.micros().0)),
    }
}

fn lapse_answer(t: Lapse, left: Micros) -> Answer
    ensures { result ≡ lapse_answer t left }
{
    match t {
        Lapse::Pass(_) => Answer::Done(0),
        Lapse::Wait(limit) => {
            let limit = limit.micros();
            if left.0 <= limit.0 {
                Answer::Done(left.0)
            } else {
                Answer::Expired(limit)
            }
        }
    }
}

pub fn lapsed(
    r: Record,
    cells: &mut CellsMut<'_>,
    lines: &mut Lines<'_>,
    t: Lapse,
    cached: bool,
) -> Reply
    requires { OperationSmall r.op }
    ensures same { SameBuffers cells.old cells.new × SameArrays lines.old lines.new }
    ensures lapsed { leaving_in result cells.new ≡ lapsed t (part_of r cells.old) }
    ensures lines { lines_in lines.new
        ≡ cond cached (after_time r.op result.rec.op cells.new.main.now (lines_in lines.old)) (lines_in lines.old) }
{
    if too_long(t) {
        return answers::refuse(Reason::TooLong, r);
    }
    if !r.power {
        return answers::refuse(Reason::NoPower, r);
    }
    if operations::ends::none_left(r.op) {
        return answers::refuse(Reason::NoneLeft, r);
    }
    let left = operations::ends::time_left(r.op);
    let answer = lapse_answer(t, left);
    let time = lapse_time(t, left);
    let next = operations::ends::elapse(r, cells, lines, time, cached);
    answers::reply(answer, next)
}
