// The calls of a part that a host holds, and the window (document 01, "Calls"; document 02, note 5). A call changes the record, the cells and the
// lines in place.
#![tactic(auto)]

ghost use Rattle.std.specs.Prelude.{◌≡◌, ◌+◌};
ghost use Rattle.cached.specs.Device.{cached_step, device, served_with};
ghost use Rattle.cached.specs.Lines.{lines_of};
ghost use Rattle.interface.specs.Held.{device_held, served_on, SameHeld};
ghost use Rattle.part.specs.State.{part};
ghost use Rattle.part.specs.Reads.{window_of, window_start};
ghost use Rattle.part.specs.declared.Call.TheVariants.{Reset, Debugger, Read, Write, Time, Fetch};
ghost use Rattle.part.specs.declared.Lapse.TheVariants.{Pass, Wait};

pub mod host;

use calls::call;
use host::Host;
use lined::lent::Lines;
use part::{Access, Answer, Call, CellsMut, Lapse, Link, Record};
use time::{Micros, Millis};
use windows::window_core;

// Where a write goes, and its value.
#[derive(Clone, Copy)]
pub struct Store {
    pub access: Access,
    pub value: u64,
}

// Any call, over buffers that stand one by one: for a host that is itself lent them, of which it can make no `Host`.
pub fn serve(
    rec: &mut Record,
    main: &mut [u8],
    otp: &mut [u8],
    options: &mut [u8],
    sram: &mut [u8],
    tags: &mut [u32; 72],
    lines: &mut [u8; 1152],
    timings: &[u32],
    scrap: &[u8],
    c: Call,
) -> Answer
    ensures { served_with result rec.new main.new otp.new options.new sram.new tags.new lines.new
        ≡ cached_step timings.now scrap.now c
        (device (part rec.old main.old otp.old options.old sram.old) (lines_of tags.old lines.old)) }
{
    let mut cells = CellsMut {
        main,
        otp,
        options,
        sram,
    };
    let mut lent = Lines { tags, bytes: lines };
    let out = call(*rec, &mut cells, &mut lent, timings, scrap, c);
    *rec = out.rec;
    out.answer
}

impl Host<'_> {
    // Any call, over the record in place.
    fn serve(&mut self, c: Call) -> Answer
        ensures same { SameHeld self.old self.new }
        ensures served { served_on result self.new ≡ cached_step self.old.timings.now self.old.scrap.now c (device_held self.old) }
    {
        let out = call(
            *self.rec,
            &mut self.cells,
            &mut self.lines,
            self.timings,
            self.scrap,
            c,
        );
        *self.rec = out.rec;
        out.answer
    }

    pub fn reset(&mut self, boot: u32) -> Answer
        ensures same { SameHeld self.old self.new }
        ensures served { served_on result self.new
            ≡ cached_step self.old.timings.now self.old.scrap.now (Reset boot) (device_held self.old) }
    {
        self.serve(Call::Reset(boot))
    }

    pub fn debugger(&mut self, link: Link) -> Answer
        ensures same { SameHeld self.old self.new }
        ensures served { served_on result self.new
            ≡ cached_step self.old.timings.now self.old.scrap.now (Debugger link) (device_held self.old) }
    {
        self.serve(Call::Debugger(link))
    }

    pub fn read(&mut self, access: Access) -> Answer
        ensures same { SameHeld self.old self.new }
        ensures served { served_on result self.new
            ≡ cached_step self.old.timings.now self.old.scrap.now (Read access) (device_held self.old) }
    {
        self.serve(Call::Read(access))
    }

    pub fn fetch(&mut self, address: u32) -> Answer
        ensures same { SameHeld self.old self.new }
        ensures served { served_on result self.new
            ≡ cached_step self.old.timings.now self.old.scrap.now (Fetch address) (device_held self.old) }
    {
        self.serve(Call::Fetch(address))
    }

    pub fn write(&mut self, store: Store) -> Answer
        ensures same { SameHeld self.old self.new }
        ensures served { served_on result self.new
            ≡ cached_step self.old.timings.now self.old.scrap.now (Write store.access store.value) (device_held self.old) }
    {
        self.serve(Call::Write(store.access, store.value))
    }

    pub fn pass(&mut self, time: Micros) -> Answer
        ensures same { SameHeld self.old self.new }
        ensures served { served_on result self.new
            ≡ cached_step self.old.timings.now self.old.scrap.now (Time (Pass time)) (device_held self.old) }
    {
        self.serve(Call::Time(Lapse::Pass(time)))
    }

    pub fn wait(&mut self, limit: Millis) -> Answer
        ensures same { SameHeld self.old self.new }
        ensures served { served_on result self.new
            ≡ cached_step self.old.timings.now self.old.scrap.now (Time (Wait limit)) (device_held self.old) }
    {
        self.serve(Call::Time(Lapse::Wait(limit)))
    }
}

// The part of main flash that the sector is, in the host's own memory, or an empty part at main flash's front. Buffers stand one
// by one, since it borrows main flash alone.
pub fn window<'a>(
    rec: &Record,
    main: &'a [u8],
    otp: &[u8],
    options: &[u8],
    sram: &[u8],
    timings: &[u32],
    who: u32,
    sector: u32,
) -> &'a [u8]
    ensures { (result.now ≡ window_of timings.now
        (part rec.now main.now otp.now options.now sram.now) who sector)
        × (result.ref_ptr.0 ≡ main.entry.ref_ptr.0)
        × (result.ref_ptr.1 ≡ main.entry.ref_ptr.1 + window_start timings.now
        (part rec.now main.now otp.now options.now sram.now) who sector) }
{
    window_core(*rec, main, otp, options, sram, timings, who, sector)
}
