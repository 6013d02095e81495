//! Whether a lane refuses a Put, before there is an event for it.
use crate::lane::Lane;
use crate::lane_refusals::{plainly, refused_put};
use cfdp_types::PutRequest;
use cfdp_types::limits::FILE_OCTETS;
use lane_table::Refused;
use txn_events::Refusal;

impl Lane {
    ghost use Rattle.std.specs.Prelude.{◌≡◌};
    ghost use Rattle.cfdp_types.specs.declared.params.ParamsParts.{ParamsParts};
    ghost use Rattle.txn_events.specs.declared.event.Event.TheVariants.{Put};
    ghost use Rattle.lane_table.specs.Steps.{refusal_at};

    /// Why the lane would refuse a Put of this request, whatever its parameters. For a caller that has no memory to
    /// make the event.
    pub fn refuses_put(&self, request: &PutRequest) -> Option<Refused>
        ensures { (params : ParamsParts) → result ≡ refusal_at self.now (Put request.now params) }
    {
        if let Some(refused) = refused_put(self.is_running(), self.next_number()) {
            return Some(refused);
        }
        if request.file().as_slice().len() > FILE_OCTETS as usize {
            return Some(plainly(Refusal::TooLarge));
        }
        None
    }
}
