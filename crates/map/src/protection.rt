// What is write-protected: sectors by nWRP, OTP blocks by their lock bytes.
ghost use Rattle.std.specs.Prelude.{◌≡◌};
ghost use Rattle.map.specs.Protection.{protected_by, any_protected, block_locked};

// The bytes of an OTP block, and where the lock bytes begin.
const BLOCK: u32 = 32;

const LOCK_BYTES: u32 = 512;

// A sector is protected by a 0 in its bit. nWRP has no bit 32 or above, which counts as 0.
pub fn protected_by(nwrp: u32, sector: u32) -> bool
    ensures { result ≡ protected_by nwrp sector }
{
    31 < sector || (nwrp >> sector) & 1 == 0
}

// One of the sectors below n is protected: the n lowest bits are not all 1.
pub fn any_protected(nwrp: u32, n: u32) -> bool
    ensures { result ≡ any_protected nwrp n }
{
    if 32 < n {
        return true;
    }
    let mask: u64 = (1 << n) - 1;
    (nwrp as u64) & mask != mask
}

// The offset, from the start of OTP, lies in a block whose lock byte is 00.
pub fn block_locked(otp: &[u8], offset: u32) -> bool
    ensures { result ≡ block_locked otp.now offset }
{
    offset < LOCK_BYTES
        && otp
            .get((LOCK_BYTES + offset / BLOCK) as usize)
            .copied()
            .unwrap_or(0)
            == 0
}
