ghost use Rattle.std.specs.Prelude.{◌≡◌};
ghost use Rattle.program_station.specs.Obstacles.{obstacle_of};

use program_agenda::Obstacle;
use shared_entity::EntityRefusal;
use txn_events::Refusal;

/// What a refusal means for the work that was refused.
pub(crate) fn obstacle_of(refusal: &EntityRefusal) -> Obstacle
    ensures { result ≡ obstacle_of refusal.now }
{
    if refusal.is_passing() {
        Obstacle::Passing
    } else if refusal.is_final() {
        Obstacle::Final
    } else {
        Obstacle::Lasting
    }
}

/// Whether a refusal says that the transaction's journal is full.
pub(crate) fn is_full(refusal: &EntityRefusal) -> bool {
    match refusal {
        EntityRefusal::Lane(refused) => refused.why == Refusal::JournalFull,
        _ => false,
    }
}
