use crate::view::View;
use crossbeam_queue::RuledArrayQueue;
use crossbeam_queue::protocol::{Join, Lesson, Outcome, Protocol, Split};
use indications::Bundle;
use std::marker::{Brand, PhantomData};

/// The rule of a user's queue: for each lane, what was taken and then what is held is what that lane sent.
pub struct Fair;

impl Protocol<Bundle, View> for Fair {
    ghost use Rattle.queue_rule.specs.declared.view.View.TheVariants.{Origin};
    ghost use Rattle.queue_rule.specs.Rule.{IsFair};

    ghost holds = { IsFair };

    ghost first = { Origin };
}

/// The user of a queue, and how many bundles it has room for, as a type.
pub trait QueueOfUser {
    ghost use Rattle.std.specs.Prelude.{ℕ};

    ghost user: { ℕ };

    ghost room: { ℕ };
}

impl QueueOfUser for Brand {
    ghost user = { 0 };

    ghost room = { 0 };
}

/// The step in which a lane puts a bundle into the queue.
pub struct Sends;

impl Outcome<Bundle, View> for Sends {
    ghost use Rattle.std.specs.Prelude.{◌≡◌};
    ghost use Rattle.queue_rule.specs.Views.{pushed};

    ghost then = { λ v x w. w ≡ pushed v x };
}

impl Lesson<Bundle, View> for Sends {
    ghost use Rattle.std.specs.Prelude.{⊤};

    ghost fact = { λ v items. ⊤ };
}

/// The step in which the user takes a bundle.
pub struct Takes;

impl Outcome<Bundle, View> for Takes {
    ghost use Rattle.std.specs.Prelude.{◌≡◌};
    ghost use Rattle.queue_rule.specs.Views.{popped, IsOrderly};

    ghost then = { λ v x w. (w ≡ popped v x) × IsOrderly w };
}

impl Lesson<Bundle, View> for Takes {
    ghost use Rattle.queue_rule.specs.Views.{IsLearned};

    ghost fact = { λ v items. IsLearned v items };
}

/// The step in which the queue's first pass becomes the port of a user.
pub struct OfUser<U> {
    user: PhantomData<U>,
}

impl<U: QueueOfUser> Split<View> for OfUser<U> {
    ghost use Rattle.queue_rule.specs.declared.view.View.TheVariants.{Port, Spent};
    ghost use Rattle.queue_rule.specs.Views.{new_port};

    ghost left = { λ v. Spent };

    ghost right = { λ v. Port (new_port U.user U.room) };
}

/// The step in which the outlet of the next lane is split off the port.
pub struct NextLane;

impl Split<View> for NextLane {
    ghost use Rattle.queue_rule.specs.Views.{split_port, split_outlet};

    ghost left = { split_port };

    ghost right = { split_outlet };
}

/// The step in which a lane's outlet is given back to the port.
pub struct GivesBack;

impl Join<View> for GivesBack {
    ghost use Rattle.queue_rule.specs.declared.view.View.TheVariants.{Spent};
    ghost use Rattle.queue_rule.specs.Views.{joined};

    ghost both = { joined };

    ghost spent = { Spent };
}
