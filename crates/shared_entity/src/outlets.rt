ghost use Rattle.std.specs.Prelude.{◌≡◌, ◌≤◌, [], vec_capacity};

use shared_lanes::Names;
use std::alloc::{AllocError, Global};
use std::marker::PhantomData;
use user_queues::LaneOutlet;

/// Memory for the outlets of all lanes, reserved at opening and filled when the entity is closed.
#[derive(Drop)]
pub(crate) struct OutletRoom<N: Names, R: Copy> {
    outlets: Vec<LaneOutlet<R>>,
    names: PhantomData<N>,
    ghost empty: { outlets.items ≡ [] },
    ghost room: { N.lanes ≤ vec_capacity outlets },
}

impl<N: Names, R: Copy> OutletRoom<N, R> {
    pub(crate) fn new(alloc: Global, lanes: usize) -> Result<OutletRoom<N, R>, AllocError>
        requires { N.lanes ≤ lanes }
    {
        let outlets = Vec::with_capacity(alloc, lanes)?;
        Ok(OutletRoom {
            outlets,
            names: PhantomData,
        })
    }

    pub(crate) fn into_outlets(self) -> Vec<LaneOutlet<R>>
        ensures empty { result.items ≡ [] }
        ensures room { N.lanes ≤ vec_capacity result }
    {
        let OutletRoom { outlets, .. } = self;
        outlets
    }
}
