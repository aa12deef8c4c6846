// What STRT in CR starts: the erase of a sector or of all of main flash.
ghost use Rattle.std.specs.Prelude.{◌≡◌};
ghost use Rattle.part.specs.Writes.{erase_work, erase_target};

use part::Target;
use time::Work;

pub fn erase_work(w: u32) -> Work
    ensures { result ≡ erase_work w }
{
    if registers::is_set(w, registers::SER) {
        time::sector_work(registers::snb(w))
    } else {
        Work::MassErase
    }
}

// A mass erase keeps the length that main flash has as it begins.
pub fn erase_target(w: u32, len: usize) -> Target
    ensures { result ≡ erase_target w len }
{
    if registers::is_set(w, registers::SER) {
        Target::Sector(registers::snb(w))
    } else {
        Target::Main(len)
    }
}
