// A write that is not malformed: where it goes, and a value of its width.
ghost use Rattle.std.specs.Prelude.{false, ◌≡◌};
ghost use Rattle.part.specs.Refusals.{bad_width, too_big};

use part::Access;

#[derive(Clone, Copy)]
pub(crate) struct Store {
    pub access: Access,
    pub value: u64,
    pub ghost taken: { bad_width access.width ≡ false },
    pub ghost fits: { too_big access.width value ≡ false },
}
