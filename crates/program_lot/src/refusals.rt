ghost use Rattle.std.specs.Prelude.{◌≡◌};
ghost use Rattle.program_lot.specs.Waits.{lacks_memory};

use entity_parts::EntityRefusal;
use txn_events::Refusal;

/// Whether a datagram was refused because memory ran out.
pub fn lacks_memory(refusal: &EntityRefusal) -> bool
    ensures { result ≡ lacks_memory refusal.now }
{
    match refusal {
        EntityRefusal::Lane(refused) => refused.why == Refusal::NoMemory,
        _ => false,
    }
}
