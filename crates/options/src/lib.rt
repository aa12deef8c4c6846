// The option cells: byte 0 USER, byte 1 RDP, bytes 8 and 9 nWRP. Level and protection come from here, never from OPTCR.
#![tactic(auto)]

ghost use Rattle.std.specs.Prelude.{cond, ◌≡◌, ◌<◌, ℕ, List, length, get_or};
ghost use Rattle.part.specs.Options.{level_of, nwrp_of, loaded_optcr, changed_options, regressed_options, cut_option, cut_options};
ghost use Rattle.part.specs.Refusals.{guarded};
ghost use Rattle.options.specs.Changed.{changed_at, new_at};

const USER: usize = 0;

const RDP: usize = 1;

const NWRP_LOW: usize = 8;

const NWRP_HIGH: usize = 9;

// RDP's bytes for level 0 and level 2; all others are level 1.
const LEVEL_0: u8 = 0xAA;

const LEVEL_2: u8 = 0xCC;

// USER's bits that are stored, and those that stay 1.
const USER_BITS: u32 = 0xEC;

const USER_ONES: u8 = 0x13;

// A number, since the manual numbers the levels, and an enum could only call them Zero, One and Two.
pub fn level_of(options: &[u8]) -> u32
    ensures { result ≡ level_of options.now }
{
    match cells::byte(options, RDP) {
        LEVEL_0 => 0,
        LEVEL_2 => 2,
        _ => 1,
    }
}

// The intrusion mark at level 1 or 2.
pub fn guarded(mark: bool, options: &[u8]) -> bool
    ensures { result ≡ guarded mark options.now }
{
    mark && level_of(options) != 0
}

pub fn nwrp_of(options: &[u8]) -> u32
    ensures { result ≡ nwrp_of options.now }
{
    let low = cells::byte(options, NWRP_LOW);
    let high = cells::byte(options, NWRP_HIGH);
    low as u32 + 256 * (high as u32)
}

// OPTCR's fields as they load from the cells.
pub fn loaded_optcr(options: &[u8]) -> u32
    ensures { result ≡ loaded_optcr options.now }
{
    let user = cells::byte(options, USER);
    let rdp = cells::byte(options, RDP);
    let nwrp = nwrp_of(options);
    (user as u32 & USER_BITS) | (((rdp as u32) << 8) | ((nwrp & 0xFFF) << 16))
}

// Each cell becomes what `new` makes of its number and of what it was.
fn rewrite<F: Fn(usize, u8) -> u8>(options: &mut [u8], new: F)
    requires { F.IsAlwaysCallable new }
    ensures { (t : List ℕ) → length t ≡ length options.old
        → ((i r : ℕ) → i < length options.old → F.post new i (get_or options.old i 0) r → r ≡ get_or t i 0) → options.new ≡ t }
{
    for (i, cell) in options.iter_mut().enumerate() {
        *cell = new(i, *cell);
    }
}

// What an option change makes of byte i.
fn changed_byte(optcr: u32, i: usize) -> u8
    ensures { result ≡ changed_at optcr i }
{
    match i {
        NWRP_HIGH => ((optcr >> 24) & 0xF) as u8 | 0xF0,
        NWRP_LOW => ((optcr >> 16) & 0xFF) as u8,
        RDP => ((optcr >> 8) & 0xFF) as u8,
        USER => (optcr & USER_BITS) as u8 | USER_ONES,
        _ => 0xFF,
    }
}

// An option change programs RDP, USER and nWRP from OPTCR, and every other byte is FF.
pub fn change_options(options: &mut [u8], optcr: u32)
    ensures { options.new ≡ changed_options options.old optcr }
{
    rewrite(options, |i, _| changed_byte(optcr, i))
}

// A regression programs RDP alone.
pub fn regress_options(options: &mut [u8])
    ensures { options.new ≡ regressed_options options.old }
{
    cells::put(options, RDP, LEVEL_0);
}

// What a regression, or else an option change, makes of byte i.
fn new_byte(regress: bool, optcr: u32, i: usize, old: u8) -> u8
    ensures { result ≡ new_at regress optcr i old }
{
    if !regress {
        changed_byte(optcr, i)
    } else if i == RDP {
        LEVEL_0
    } else {
        old
    }
}

// What a cut makes of byte i, by its scrap.
fn cut_byte(regress: bool, optcr: u32, i: usize, old: u8, scrap: u8) -> u8
    ensures { result ≡ cut_option old (new_at regress optcr i old) scrap }
{
    match scrap % 3 {
        0 => old,
        1 => 0xFF,
        _ => new_byte(regress, optcr, i, old),
    }
}

// A regression, or else an option change, is cut while it programs the cells.
pub fn cut_options(options: &mut [u8], regress: bool, optcr: u32, scrap: &[u8])
    ensures { options.new ≡ cut_options options.old
        (cond regress (regressed_options options.old) (changed_options options.old optcr)) scrap.now }
{
    rewrite(
        options,
        |i, old| cut_byte(regress, optcr, i, old, cells::byte(scrap, i)),
    )
}
