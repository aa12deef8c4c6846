// The width of an access that is not malformed.
ghost use Rattle.std.specs.Prelude.{false, ◌≡◌};
ghost use Rattle.part.specs.Refusals.{bad_width};

#[derive(Clone, Copy)]
pub struct Width {
    pub bytes: u32,
    pub ghost taken: { bad_width bytes ≡ false },
}
