use std::marker::Brand;

/// The queues that the threads of one run share. No value of it is ever made: it is a type that all types that mention
/// these queues agree on.
pub trait Names {
    ghost use Rattle.std.specs.Prelude.{ℕ};
    ghost use Rattle.atomic_table.specs.Seated.{TableId};

    /// The queue of each user.
    ghost queue: { ℕ → TableId };

    /// The number of lanes of all users together.
    ghost lanes: { ℕ };
}

impl Names for Brand {
    ghost use Rattle.user_queues.specs.Names.{no_queue};

    ghost queue = { no_queue };

    ghost lanes = { 0 };
}
