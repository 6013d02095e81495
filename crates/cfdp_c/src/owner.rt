// The right to a session on the heap, as C holds it: an untyped pointer.
ghost use Rattle.std.specs.Prelude.{◌≡◌, true, Option};
ghost use Rattle.cfdp_session.specs.declared.session.Session.{Session};
ghost use Rattle.cfdp_c.specs.Owned.{owned, is_full};

use cfdp_session::Session;
use loose_box::Loose;
use std::alloc::Global;
use std::marker::Model;

#[repr(C)]
#[derive(Drop)]
pub struct Owner {
    at: *mut u8,
    pub ghost held: { Option Session },
}

impl Model for Owner {
    ghost also_owns = { λ o. owned o.at o.held };
}

// C may move a handle to another thread, under a lock. One thread uses it at a time.
unsafe impl Send for Owner {}

impl Owner {
    pub(crate) fn none() -> Owner
        ensures { result.held ≡ None }
    {
        Owner {
            at: std::ptr::null_mut(),
        }
    }

    pub(crate) fn of(session: Loose<Session, Global>) -> Owner
        ensures { result.held ≡ Some session.value }
    {
        let Loose { at, alloc: _ } = session;
        Owner { at: at as *mut u8 }
    }

    pub(crate) fn into_loose(self, alloc: Global) -> Loose<Session, Global>
        requires { is_full self.held ≡ true }
        ensures { self.held ≡ Some result.value }
    {
        let Owner { at } = self;
        Loose {
            at: at as *mut Session,
            alloc,
        }
    }
}
