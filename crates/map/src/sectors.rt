// The sectors of main flash: four small ones, one of 64 KiB, then large ones. Offsets are from its start.
ghost use Rattle.std.specs.Prelude.{◌≡◌};
ghost use Rattle.map.specs.Sectors.{sector_length, sector_start, sector_of, sectors_in};

const KIB_16: usize = 16_384;

const KIB_64: usize = 65_536;

const KIB_128: usize = 131_072;

// Main flash of a part with all 12 sectors.
const LONGEST: usize = 1_048_576;

pub fn sector_length(k: u32) -> usize
    ensures { result ≡ sector_length k }
{
    match k {
        0..=3 => KIB_16,
        4 => KIB_64,
        _ => KIB_128,
    }
}

pub fn sector_start(k: u32) -> usize
    ensures { result ≡ sector_start k }
{
    match k {
        0..=3 => k as usize * KIB_16,
        4 => KIB_64,
        _ => (k - 4) as usize * KIB_128,
    }
}

// The sector that holds the byte at an offset.
pub fn sector_of(offset: u32) -> u32
    ensures { result ≡ sector_of offset }
{
    let o = offset as usize;
    if o < KIB_64 {
        (o / KIB_16) as u32
    } else if o < KIB_128 {
        4
    } else {
        (4 + o / KIB_128) as u32
    }
}

// The number of sectors of a part by the length of its main flash; 0 where no part has it.
pub fn sectors_in(len: usize) -> u32
    ensures { result ≡ sectors_in len }
{
    if len <= KIB_64 {
        if len % KIB_16 == 0 {
            (len / KIB_16) as u32
        } else {
            0
        }
    } else if len <= LONGEST && len % KIB_128 == 0 {
        (4 + len / KIB_128) as u32
    } else {
        0
    }
}
