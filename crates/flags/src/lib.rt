// The flag that rises where a program or an erase may not start (document 01, "Calls").
#![tactic(auto)]

ghost use Rattle.std.specs.Prelude.{◌≡◌, ◌^◌};
ghost use Rattle.registers.specs.Fields.{psize};
ghost use Rattle.part.specs.Writes.{protected_at, program_flag, erase_flag};

use map::{Place, areas};
use part::Access;

// System memory and option cells are never programmed, nor is what lies in system memory and OTP.
pub fn protected_at(nwrp: u32, otp: &[u8], place: Place) -> bool
    ensures { result ≡ protected_at nwrp otp.now place }
{
    match place {
        Place::Main(offset) => {
            map::protection::protected_by(nwrp, map::sectors::sector_of(offset))
        }
        Place::Otp(offset) => map::protection::block_locked(otp, offset),
        Place::System(_) | Place::SystemAndOtp(_) | Place::OptionCells(_) => true,
    }
}

// PSIZE's number of bytes.
fn program_width(cr: u32) -> u32
    ensures { result ≡ 2 ^ psize cr }
{
    1 << registers::psize(cr)
}

// The flag that stops a program, if one does.
pub fn program_flag(cr: u32, a: Access, protected: bool) -> Option<u32>
    ensures { result ≡ program_flag cr a protected }
{
    if !registers::is_set(cr, registers::PG) {
        Some(registers::PGSERR)
    } else if areas::crosses_row(a.address, a.width) {
        Some(registers::PGAERR)
    } else if a.width != program_width(cr) {
        Some(registers::PGPERR)
    } else if protected {
        Some(registers::WRPERR)
    } else {
        None
    }
}

// The flag that stops an erase, if one does. SNB counts only where SER asks for a sector.
pub fn erase_flag(w: u32, n: u32, nwrp: u32, guard: bool) -> Option<u32>
    ensures { result ≡ erase_flag w n nwrp guard }
{
    let ser = registers::is_set(w, registers::SER);
    let mer = registers::is_set(w, registers::MER);
    let sector = registers::snb(w);
    let protected = if ser {
        map::protection::protected_by(nwrp, sector)
    } else {
        map::protection::any_protected(nwrp, n)
    };
    if !ser & !mer {
        Some(registers::PGSERR)
    } else if (ser & mer) | (ser & (n <= sector)) | protected | guard {
        Some(registers::WRPERR)
    } else {
        None
    }
}
