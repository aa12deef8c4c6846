// The map of document 01, "Cells and map": sectors of main flash, the areas of the address space, and what is write-protected.
// Every function is total, and each contract is one equation with the definition of the same name in specs/.
#![tactic(auto)]

pub mod areas;
pub mod protection;
pub mod sectors;

// Cells of the flash memory, by the block that they are in, with an offset there.
#[derive(Clone, Copy)]
pub enum Place {
    Main(u32),
    System(u32),
    Otp(u32),
    // The last bytes of system memory and the first of OTP; the offset is from the start of system memory.
    SystemAndOtp(u32),
    OptionCells(u32),
}

// Where an access lies; offsets in the registers and in the backup SRAM are from their first byte.
#[derive(Clone, Copy)]
pub enum Area {
    Flash(Place),
    Registers(u32),
    // The backup SRAM: it is neither programmed nor stalled, so it is no place of the flash memory.
    Sram(u32),
    Outside,
}
