// Writes to the six registers. `w` is a register as a whole after the write: written lanes, and the others as they read. A write to CR or OPTCR is
// decided by the timings, the record, the length of main flash and the option cells, which no caller has as one value.
#![tactic(auto)]

ghost use Rattle.std.specs.Prelude.{◌≡◌};
ghost use Rattle.part.specs.State.{reply, with_acr, with_sr};
ghost use Rattle.part.specs.declared.Answer.TheVariants.{Done};
ghost use Rattle.registers.specs.Fields.{register_at, sr_flags, acr_after};
ghost use Rattle.registers.specs.Words.{merged, placed, cleared_by};
ghost use Rattle.registers.specs.declared.Register.TheVariants.{Acr};
ghost use Rattle.part.specs.Registers.{control_of, register_of};
ghost use Rattle.part.specs.Writes.{cr_start, locked_if, cr_write, optcr_start, optcr_write, keys_of, key_write, stored, control_write, register_write};

use lock::{Keys, Lock};
use part::{Answer, Reason, Record, Reply, Target};
use record::{answers, fields, readout};
use registers::{LockOf, Register};
use time::Work;

// LOCK in CR, and OPTLOCK in OPTCR.
fn locked_if(which: LockOf, test: bool, x: Reply) -> Reply
    ensures { result ≡ locked_if which test x }
{
    if test {
        return answers::reply(x.answer, fields::with_lock(which, x.rec, Lock::closed()));
    }
    answers::reply(x.answer, x.rec)
}

// CR with its fields stored: with STRT an erase starts, or a flag rises.
fn cr_start(timings: &[u32], r: Record, len: usize, options: &[u8], w: u32) -> Reply
    ensures { result ≡ cr_start timings.now r len options.now w }
{
    if registers::is_set(w, registers::STRT) {
        let n = map::sectors::sectors_in(len);
        let guarded = options::guarded(r.mark, options);
        let nwrp = options::nwrp_of(options);
        let flag = flags::erase_flag(w, n, nwrp, guarded);
        let target = operations::erases::erase_target(w, len);
        let row = registers::psize(w);
        let work = operations::erases::erase_work(w);
        let left = time::duration(timings, row, work);
        return operations::starts::flagged_or(r, flag, target, left);
    }
    answers::reply(Answer::Done(0), r)
}

// This and `optcr_write` differ in the register's masks and in what it starts: one function for both would take all four.
fn cr_write(timings: &[u32], r: Record, len: usize, options: &[u8], w: u32) -> Reply
    ensures { result ≡ cr_write timings.now r len options.now w }
{
    let stored = fields::with_cr(r, w & registers::CR_FIELDS);
    let x = cr_start(timings, stored, len, options, w);
    let locks = registers::is_set(w, registers::LOCK);
    locked_if(LockOf::Cr, locks, x)
}

// OPTCR with its fields stored: with OPTSTRT a regression or an option change starts, or WRPERR rises at level 2.
fn optcr_start(timings: &[u32], r: Record, len: usize, options: &[u8], w: u32) -> Reply
    ensures { result ≡ optcr_start timings.now r len options.now w }
{
    if registers::is_set(w, registers::OPTSTRT) {
        let level = options::level_of(options);
        let row = registers::psize(r.cr);
        let rdp = registers::rdp(r.optcr);
        if level == 2 {
            return operations::starts::flagged(r, registers::WRPERR);
        }
        if (level == 1) & (rdp == 0xAA) {
            let both = time::regression_time(timings, row);
            let option = time::duration(timings, row, Work::Options);
            return operations::starts::started(r, Target::Regression(len, option), both);
        }
        let left = time::duration(timings, row, Work::Options);
        return operations::starts::started(r, Target::Options, left);
    }
    answers::reply(Answer::Done(0), r)
}

fn optcr_write(timings: &[u32], r: Record, len: usize, options: &[u8], w: u32) -> Reply
    ensures { result ≡ optcr_write timings.now r len options.now w }
{
    let stored = fields::with_optcr(r, w & registers::OPTCR_FIELDS);
    let x = optcr_start(timings, stored, len, options, w);
    let locks = registers::is_set(w, registers::OPTLOCK);
    locked_if(LockOf::Optcr, locks, x)
}

fn keys_of(which: LockOf) -> Keys
    ensures { result ≡ keys_of which }
{
    match which {
        LockOf::Cr => lock::keyr_keys(),
        LockOf::Optcr => lock::optkeyr_keys(),
    }
}

fn key_write(which: LockOf, r: Record, word: u32) -> Reply
    ensures { result ≡ key_write which r word }
{
    match fields::lock_in(which, r).key(word, keys_of(which)) {
        Ok(next) => answers::reply(Answer::Done(0), fields::with_lock(which, r, next)),
        Err(wrong) => answers::refuse(Reason::WrongKey, fields::with_lock(which, r, wrong.lock)),
    }
}

fn acr_write(r: Record, offset: u32, width: u32, value: u32) -> Reply
    ensures { result ≡ reply (Done 0) (with_acr r (acr_after r.acr (merged (register_of r Acr) value width offset))) }
{
    let old = readout::register_of(r, Register::Acr);
    let w = registers::merge(old, value, width, offset);
    let next = registers::acr_after(r.acr, w);
    answers::reply(Answer::Done(0), fields::with_acr(r, next))
}

// Lanes that are not written count as 0.
fn sr_write(r: Record, offset: u32, width: u32, value: u32) -> Reply
    ensures { result ≡ reply (Done 0) (with_sr r (cleared_by r.sr (placed value width offset) sr_flags)) }
{
    let lone = registers::placed(value, width, offset);
    let next = registers::clear_written(r.sr, lone, registers::SR_FLAGS);
    answers::reply(Answer::Done(0), fields::with_sr(r, next))
}

fn stored(timings: &[u32], r: Record, len: usize, options: &[u8], which: LockOf, w: u32) -> Reply
    ensures { result ≡ stored timings.now r len options.now which w }
{
    match which {
        LockOf::Cr => cr_write(timings, r, len, options, w),
        LockOf::Optcr => optcr_write(timings, r, len, options, w),
    }
}

// CR and OPTCR stall while busy, and want their lock open; only then is it worked out what they become.
fn control_write(
    timings: &[u32],
    r: Record,
    len: usize,
    options: &[u8],
    which: LockOf,
    offset: u32,
    width: u32,
    value: u32,
) -> Reply
    ensures { result ≡ control_write timings.now r len options.now which (merged (control_of which r) value width offset) }
{
    if readout::is_busy(r.op) {
        return answers::refuse(Reason::Stalled, r);
    }
    if !fields::lock_in(which, r).is_open() {
        return answers::refuse(Reason::Locked, r);
    }
    let old = readout::control_of(which, r);
    let w = registers::merge(old, value, width, offset);
    stored(timings, r, len, options, which, w)
}

pub fn register_write(
    timings: &[u32],
    r: Record,
    len: usize,
    options: &[u8],
    offset: u32,
    width: u32,
    value: u32,
) -> Reply
    ensures { result ≡ register_write timings.now r len options.now (register_at offset) offset width value }
{
    match registers::register_at(offset) {
        Register::Acr => acr_write(r, offset, width, value),
        Register::Sr => sr_write(r, offset, width, value),
        Register::Key(which) => key_write(which, r, value),
        Register::Control(which) => {
            control_write(timings, r, len, options, which, offset, width, value)
        }
    }
}
