use shared_entity::EntityRefusal;

/// Receives the answers to the datagrams that a worker brings to their lanes.
pub trait Carrier<A> {
    ghost use Rattle.std.specs.Prelude.{Result};
    ghost use Rattle.entity_parts.specs.declared.refusal.EntityRefusal.{EntityRefusal};

    /// The answers that the carrier accepts.
    ghost accepts: { Self → Result A EntityRefusal → Type 0 };

    /// Handles an answer. The carrier still accepts all that it accepted before.
    fn carry(&mut self, answer: Result<A, EntityRefusal>)
        requires { accepts self.old answer }
        ensures { (other : Result A EntityRefusal) → accepts self.old other → accepts self.new other };
}
