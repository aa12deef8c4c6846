// Register fields, byte lanes and write-one-to-clear flags by shifts and masks on u32 (PM0059 2.8).
#![tactic(auto)]

ghost use Rattle.std.specs.Prelude.{◌≡◌};
ghost use Rattle.registers.specs.Words.{is_set, low_mask, lane_mask, lanes, placed, merged, cleared_by, lane_shift, chosen};
ghost use Rattle.registers.specs.Fields.{register_at, snb, psize, rdp, acr_after};

// Offsets from 40023C00.
pub const ACR: u32 = 0x00;

pub const KEYR: u32 = 0x04;

pub const OPTKEYR: u32 = 0x08;

pub const SR: u32 = 0x0c;

pub const CR: u32 = 0x10;

pub const OPTCR: u32 = 0x14;

// The two registers that have a lock.
#[derive(Clone, Copy)]
pub enum LockOf {
    Cr,
    Optcr,
}

// The control registers are CR and OPTCR, and each has a key register, KEYR and OPTKEYR, that opens its lock.
#[derive(Clone, Copy)]
pub enum Register {
    Acr,
    Sr,
    Key(LockOf),
    Control(LockOf),
}

// The register that holds the byte at an offset.
pub fn register_at(offset: u32) -> Register
    ensures { result ≡ register_at offset }
{
    if offset < KEYR {
        Register::Acr
    } else if offset < OPTKEYR {
        Register::Key(LockOf::Cr)
    } else if offset < SR {
        Register::Key(LockOf::Optcr)
    } else if offset < CR {
        Register::Sr
    } else if offset < OPTCR {
        Register::Control(LockOf::Cr)
    } else {
        Register::Control(LockOf::Optcr)
    }
}

// ACR: its writable bits, and the four that govern the caches.
pub const ACR_BITS: u32 = 0x1f07;

pub const ICEN: u32 = 0x200;

pub const DCEN: u32 = 0x400;

pub const ICRST: u32 = 0x800;

pub const DCRST: u32 = 0x1000;

// SR: its flags, all cleared by writing 1, and BSY.
pub const SR_FLAGS: u32 = 0xf3;

pub const EOP: u32 = 0x01;

pub const OPERR: u32 = 0x02;

pub const WRPERR: u32 = 0x10;

pub const PGAERR: u32 = 0x20;

pub const PGPERR: u32 = 0x40;

pub const PGSERR: u32 = 0x80;

pub const BSY: u32 = 0x1_0000;

// CR: its fields, and the two bits that can only be set.
pub const CR_FIELDS: u32 = 0x0300_037f;

pub const PG: u32 = 0x01;

pub const SER: u32 = 0x02;

pub const MER: u32 = 0x04;

pub const EOPIE: u32 = 0x0100_0000;

pub const ERRIE: u32 = 0x0200_0000;

pub const STRT: u32 = 0x0001_0000;

pub const LOCK: u32 = 0x8000_0000;

// OPTCR: its fields, and the two bits that can only be set.
pub const OPTCR_FIELDS: u32 = 0x0fff_ffec;

pub const OPTLOCK: u32 = 0x01;

pub const OPTSTRT: u32 = 0x02;

// One of the bits of the mask is 1.
pub fn is_set(x: u32, mask: u32) -> bool
    ensures { result ≡ is_set x mask }
{
    x & mask != 0
}

// The bits of the mask from a, the others from b.
pub fn chosen(mask: u32, a: u32, b: u32) -> u32
    ensures { result ≡ chosen mask a b }
{
    (a & mask) | (b & !mask)
}

// Of the clearable bits those that are written as 1 go.
pub fn clear_written(x: u32, written: u32, clearable: u32) -> u32
    ensures { result ≡ cleared_by x written clearable }
{
    x & !(written & clearable)
}

fn lane_shift(offset: u32) -> u32
    ensures { result ≡ lane_shift offset }
{
    (offset & 3) * 8
}

// As many low lanes as the width: all ones are moved up by its bits, in two halves, since those of a word are no shift of a u32.
fn low_mask(width: u32) -> u32
    ensures { result ≡ low_mask width }
{
    let half = (width & 7) * 4;
    !(0xffff_ffff << half << half)
}

// The lanes of a word that an access of a width covers at an offset.
fn lane_mask(width: u32, offset: u32) -> u32
    ensures { result ≡ lane_mask width offset }
{
    low_mask(width) << lane_shift(offset)
}

// What an access of a width reads at an offset of the word x.
pub fn lanes(x: u32, width: u32, offset: u32) -> u32
    ensures { result ≡ lanes x width offset }
{
    (x >> lane_shift(offset)) & low_mask(width)
}

// A write to SR: its other lanes are 0.
pub fn placed(value: u32, width: u32, offset: u32) -> u32
    ensures { result ≡ placed value width offset }
{
    (value << lane_shift(offset)) & lane_mask(width, offset)
}

// A write to ACR, CR or OPTCR: their other lanes stay.
pub fn merge(old: u32, value: u32, width: u32, offset: u32) -> u32
    ensures { result ≡ merged old value width offset }
{
    chosen(lane_mask(width, offset), value << lane_shift(offset), old)
}

// CR's sector number.
pub fn snb(cr: u32) -> u32
    ensures { result ≡ snb cr }
{
    (cr >> 3) & 0xf
}

// CR's program size: 2 to that power bytes are programmed at once.
pub fn psize(cr: u32) -> u32
    ensures { result ≡ psize cr }
{
    (cr >> 8) & 3
}

// OPTCR's read protection byte.
pub fn rdp(optcr: u32) -> u32
    ensures { result ≡ rdp optcr }
{
    (optcr >> 8) & 0xff
}

// A cache is reset only while it is disabled (PM0059 2.8.1).
pub fn acr_after(old: u32, w: u32) -> u32
    ensures { result ≡ acr_after old w }
{
    let data = if is_set(old, DCEN) { DCRST } else { 0 };
    let instructions = if is_set(old, ICEN) { ICRST } else { 0 };
    chosen(data | instructions, old, w & ACR_BITS)
}
