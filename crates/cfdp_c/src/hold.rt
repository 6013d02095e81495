// The session of a handle, taken out for a call and put back.
ghost use Rattle.std.specs.Prelude.{◌≡◌, MatchOption};

use crate::handle::Handle;
use crate::owner::Owner;
use cfdp_session::Session;
use loose_box::Loose;
use std::alloc::Global;

pub(crate) fn closed() -> Handle
    ensures { result.owner.held ≡ None }
{
    Handle {
        live: false,
        owner: Owner::none(),
    }
}

pub(crate) fn keep(session: Box<Session>) -> Handle
    ensures { result.owner.held ≡ Some session.value }
{
    Handle {
        live: true,
        owner: Owner::of(Loose::of(session)),
    }
}

// Takes the session out and leaves the handle closed.
pub(crate) fn take(handle: &mut Handle, alloc: Global) -> Option<Box<Session>>
    ensures taken { MatchOption result (handle.old.owner.held ≡ None) (λ session. handle.old.owner.held ≡ Some session.value) }
    ensures closed { handle.new.owner.held ≡ None }
{
    let held = std::mem::replace(handle, closed());
    if held.live {
        Some(held.owner.into_loose(alloc).into_box())
    } else {
        None
    }
}
