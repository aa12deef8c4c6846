// Where the bytes of an access lie.
ghost use Rattle.std.specs.Prelude.{◌≡◌, ◌-◌};
ghost use Rattle.map.specs.Areas.{inside, area_of, crosses_row};

use crate::{Area, Place};

pub const MAIN_BASE: u32 = 0x0800_0000;

// System memory and OTP are neighbours.
pub const SYSTEM_BASE: u32 = 0x1FFF_0000;

pub const SYSTEM_LENGTH: usize = 0x7800;

pub const OTP_BASE: u32 = 0x1FFF_7800;

pub const OTP_LENGTH: usize = 528;

pub const OPTION_BASE: u32 = 0x1FFF_C000;

pub const OPTION_LENGTH: usize = 16;

// Six registers of a word, the last at offset 14.
pub const REGISTER_BASE: u32 = 0x4002_3C00;

pub const REGISTER_LENGTH: usize = 24;

pub const SRAM_BASE: u32 = 0x4002_4000;

pub const SRAM_LENGTH: usize = 4096;

// PM0059 2.5.4: no write may cross a row of 128 bits.
pub const ROW: u64 = 16;

// How far an address lies above a base, and 0 below it.
pub fn offset(address: u32, base: u32) -> u32
    ensures { result ≡ address - base }
{
    address.saturating_sub(base)
}

// All bytes of the access lie among the n from base. The sum is of 64 bits, so that an access near FFFFFFFF never wraps round.
pub fn within(address: u32, width: u32, base: u32, n: usize) -> bool
    ensures { result ≡ inside address width base n }
{
    base <= address && (address - base) as usize + width as usize <= n
}

pub fn area_of(len: usize, address: u32, width: u32) -> Area
    ensures { result ≡ area_of len address width }
{
    if within(address, width, MAIN_BASE, len) {
        Area::Flash(Place::Main(offset(address, MAIN_BASE)))
    } else if within(address, width, REGISTER_BASE, REGISTER_LENGTH) {
        Area::Registers(offset(address, REGISTER_BASE))
    } else if within(address, width, SYSTEM_BASE, SYSTEM_LENGTH) {
        Area::Flash(Place::System(offset(address, SYSTEM_BASE)))
    } else if within(address, width, OTP_BASE, OTP_LENGTH) {
        Area::Flash(Place::Otp(offset(address, OTP_BASE)))
    } else if within(address, width, SYSTEM_BASE, SYSTEM_LENGTH + OTP_LENGTH) {
        Area::Flash(Place::SystemAndOtp(offset(address, SYSTEM_BASE)))
    } else if within(address, width, OPTION_BASE, OPTION_LENGTH) {
        Area::Flash(Place::OptionCells(offset(address, OPTION_BASE)))
    } else if within(address, width, SRAM_BASE, SRAM_LENGTH) {
        Area::Sram(offset(address, SRAM_BASE))
    } else {
        Area::Outside
    }
}

// The access lies in two rows, which raises PGAERR on a write.
pub fn crosses_row(address: u32, width: u32) -> bool
    ensures { result ≡ crosses_row address width }
{
    ROW < address as u64 % ROW + width as u64
}
