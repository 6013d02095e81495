// What C holds.
ghost use Rattle.std.specs.Prelude.{◌≡◌};
ghost use Rattle.cfdp_c.specs.Owned.{is_full};

use crate::owner::Owner;

/// A handle. C fills it with zeros, which makes it a closed handle, and passes its address to each call.
#[repr(C)]
#[derive(Drop)]
pub struct Handle {
    pub(crate) live: bool,
    pub(crate) owner: Owner,
    pub ghost same: { live ≡ is_full owner.held },
}
