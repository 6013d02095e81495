use crate::list_queue::ListQueue;
use indications::{Bundle, Outlet};

/// An outlet of a `ListQueue`: the end into which one of the user's lanes puts its bundles.
#[derive(Drop)]
pub struct ListOutlet<'q> {
    queue: &'q mut ListQueue,
    lane: usize,
}

impl<'q> ListOutlet<'q> {
    ghost use Rattle.std.specs.Prelude.{◌≡◌};

    pub(crate) fn new(queue: &'q mut ListQueue, lane: usize) -> ListOutlet<'q>
        ensures same_reference { result.queue.ghost_name ≡ queue.entry.ghost_name }
        ensures queue { result.queue.now ≡ queue.old }
        ensures lane { result.lane ≡ lane }
    {
        ListOutlet { queue, lane }
    }
}

impl Outlet for ListOutlet<'_> {
    ghost use Rattle.std.specs.Prelude.{◌≡◌};
    ghost use Rattle.user_queues.specs.Queue.{EndsInHeld, IsPutIn, IsFull};

    ghost user = { λ outlet. outlet.queue.now.user };

    ghost lane = { λ outlet. outlet.lane };

    ghost stands = { λ outlet bundles. EndsInHeld outlet.queue.now outlet.lane bundles };

    ghost takes = { λ old bundle new. (new.queue.ghost_name ≡ old.queue.ghost_name) × (new.lane ≡ old.lane)
        × IsPutIn old.lane old.queue.now bundle new.queue.now };

    ghost returns = { λ old new. (new.queue.ghost_name ≡ old.queue.ghost_name) × (new.lane ≡ old.lane)
        × IsFull old.queue.now new.queue.now };

    fn offer(&mut self, bundle: Bundle) -> Result<(), Bundle> {
        self.queue.put(bundle)
    }

    ghost use Rattle.user_queues.specs.Standing.{put_in_ends, full_ends};

    ghost takes_adds = { λ old new bundle taken. put_in_ends old.queue.now new.queue.now old.lane new.lane bundle taken.1 taken.2 };

    ghost returns_keeps = { λ old new same. full_ends old.queue.now new.queue.now old.lane new.lane same.1 same.2 };
}
