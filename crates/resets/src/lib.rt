// Reset, debugger on and debugger off: the record after them, and the cells that a reset leaves.
#![tactic(auto)]

ghost use Rattle.std.specs.Prelude.{◌≡◌};
ghost use Rattle.part.specs.Calls.{reset_record, reset_outcome, debugger_reply};
ghost use Rattle.part.specs.Lent.{part_of, leaving_in, SameBuffers};
ghost use Rattle.part.specs.declared.Link.TheVariants.{On, Off};

use lock::Lock;
use operations::cuts;
use part::{Answer, CellsMut, Link, Reason, Record, Reply};
use record::{answers, fields};

// Nothing runs any more. OPTCR and the level are those of the cells as they stand now, and a debugger sets the mark before level 2 lets it go.
fn reset_record(r: Record, options: &[u8], boot: u32) -> Record
    ensures { result ≡ reset_record r options.now boot }
{
    let level = options::level_of(options);
    Record {
        acr: 0,
        sr: 0,
        cr: 0,
        lock: Lock::closed(),
        optcr: options::loaded_optcr(options),
        optlock: Lock::closed(),
        op: None,
        power: true,
        debugger: r.debugger & (level != 2),
        mark: (boot != 0) | r.debugger,
    }
}

// Refusal 16 is judged before what runs is cut.
pub fn reset(r: Record, cells: &mut CellsMut<'_>, scrap: &[u8], boot: u32) -> Reply
    ensures same { SameBuffers cells.old cells.new }
    ensures reset { leaving_in result cells.new ≡ reset_outcome scrap.now (part_of r cells.old) boot }
{
    let level = options::level_of(&mut *cells.options);
    if (level == 2) & (boot != 0) {
        return answers::refuse(Reason::ShutByLevel2, r);
    }
    if cuts::scrap_short(r.op, cells.main.len(), scrap.len()) {
        return answers::refuse(Reason::ShortScrap, r);
    }
    cuts::cut(r, cells, scrap);
    answers::reply(Answer::Done(0), reset_record(r, &mut *cells.options, boot))
}

// On sets the mark.
fn debugger_on(r: Record, options: &[u8]) -> Reply
    ensures { result ≡ debugger_reply r options.now On }
{
    if !r.power {
        return answers::refuse(Reason::NoPower, r);
    }
    if options::level_of(options) == 2 {
        return answers::refuse(Reason::ShutByLevel2, r);
    }
    answers::reply(Answer::Done(0), fields::with_debugger(r, true, true))
}

// Off keeps the mark.
fn debugger_off(r: Record, options: &[u8]) -> Reply
    ensures { result ≡ debugger_reply r options.now Off }
{
    if !r.power {
        return answers::refuse(Reason::NoPower, r);
    }
    answers::reply(Answer::Done(0), fields::with_debugger(r, false, r.mark))
}

pub fn debugger(r: Record, options: &[u8], link: Link) -> Reply
    ensures { result ≡ debugger_reply r options.now link }
{
    match link {
        Link::On => debugger_on(r, options),
        Link::Off => debugger_off(r, options),
    }
}
