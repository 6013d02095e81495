use indications::{Bundle, Outlet};
use queue_rule::{QueuePass, SharedQueue, send};
use std::alloc::Global;
use std::marker::Model;
use std::sync::{Arc, Wait};

/// An outlet of a queue that threads share: the end into which one lane of the user puts its bundles. Contracts see
/// the queue, the user and the lane, and all that the lane has sent.
#[derive(Drop)]
pub struct LaneOutlet<R: Copy> {
    rt: R,
    queue: Arc<SharedQueue, Global>,
    pass: QueuePass,
    user: usize,
    lane: usize,
}

impl<R: Copy> Model for LaneOutlet<R> {
    ghost use Rattle.std.specs.Prelude.{◌≡◌};
    ghost use Rattle.std.specs.Arc.{arc_value};
    ghost use Rattle.queue_rule.specs.Passes.{IsOutletOf};
    ghost use Rattle.user_queues.specs.Shared.{OutletEnd, outlet_end};

    ghost Value = { OutletEnd };

    ghost view = { λ o. outlet_end o.pass };

    ghost invariant = { λ o. IsOutletOf (arc_value o.queue) o.pass × (o.user ≡ (outlet_end o.pass).knows.user)
        × (o.lane ≡ (outlet_end o.pass).knows.lane) };
}

impl<R: Copy> LaneOutlet<R> {
    ghost use Rattle.std.specs.Prelude.{◌≡◌, []};
    ghost use Rattle.std.specs.Arc.{arc_value};
    ghost use Rattle.crossbeam_queue.specs.Passes.{view};
    ghost use Rattle.queue_rule.specs.Passes.{IsOutletOf};
    ghost use Rattle.queue_rule.specs.declared.view.View.TheVariants.{Outlet};
    ghost use Rattle.user_queues.specs.Shared.{outlet_end};

    pub(crate) fn new(
        rt: R,
        queue: Arc<SharedQueue, Global>,
        pass: QueuePass,
        user: usize,
        lane: usize,
    ) -> LaneOutlet<R>
        requires pass { IsOutletOf (arc_value queue) pass }
        requires user { user ≡ (outlet_end pass).knows.user }
        requires lane { lane ≡ (outlet_end pass).knows.lane }
        ensures { result ≡ outlet_end pass }
    {
        LaneOutlet {
            rt,
            queue,
            pass,
            user,
            lane,
        }
    }

    pub(crate) fn into_pass(self) -> QueuePass
        ensures end { outlet_end result ≡ self }
        ensures outlet { view result ≡ Outlet self.knows }
        ensures slots { result.me.1 ≡ [] }
    {
        let LaneOutlet { pass, .. } = self;
        pass
    }

    /// The user's number.
    pub fn user(&self) -> usize
        ensures { result ≡ self.now.knows.user }
    {
        self.user
    }

    /// The lane's number among the user's lanes.
    pub fn lane(&self) -> usize
        ensures { result ≡ self.now.knows.lane }
    {
        self.lane
    }
}

impl<R: Wait + Copy> Outlet for LaneOutlet<R> {
    ghost use Rattle.std.specs.Prelude.{◌≡◌};
    ghost use Rattle.queue_rule.specs.Views.{with_sent};

    ghost user = { λ outlet. outlet.knows.user };

    ghost lane = { λ outlet. outlet.knows.lane };

    ghost stands = { λ outlet bundles. outlet.knows.sent ≡ bundles };

    ghost takes = { λ old bundle new. (new.queue ≡ old.queue) × (new.knows ≡ with_sent old.knows bundle) };

    ghost returns = { λ old new. new ≡ old };

    fn offer(&mut self, bundle: Bundle) -> Result<(), Bundle> {
        let rt = self.rt;
        send(&rt, &self.queue, &mut self.pass, bundle)
    }

    ghost use Rattle.user_queues.specs.SharedStanding.{sent_more, sent_same};

    ghost takes_adds = { λ old new bundle taken. sent_more old.knows new.knows bundle taken.1 };

    ghost returns_keeps = { λ old new same. sent_same old new same };
}
