//! Opening a sender.
use crate::control::ControlBlock;
use crate::pdus::header_of;
use crate::plan::{Plan, Remainder};
use crate::remaining::Remaining;
use crate::sender::SenderCore;
use cfdp_types::limits::FILE_OCTETS;
use cfdp_types::{Params, PutRequest, TxnKey};
use indications::{Indication, Indications};
use std::alloc::Global;
use txn_events::{Answer, Pdus, Refusal, TimerOps};

impl SenderCore {
    ghost use Rattle.std.specs.Prelude.{◌≡◌, false, [], IfOk, IfErr};
    ghost use Rattle.sender_table.specs.Sending.{put, initial};
    ghost use Rattle.sender_table.specs.Answers.{answer_at};
    ghost use Rattle.sender_core.specs.Core.{shown, sending_of, sending_by, StandsAfter, IsPlanOf, IsWhy};

    /// Opens a sender for a Put, which is also planned as its first event. `TooLarge` if the file is too large.
    pub fn open(
        alloc: Global,
        key: TxnKey,
        request: &PutRequest,
        params: Params,
    ) -> Result<(SenderCore, Plan), Refusal>
        ensures sending { IfOk result (λ opened. sending_of opened.0 ≡ sending_by key params request.now) }
        ensures stands { IfOk result (λ opened. StandsAfter opened.0 []) }
        ensures runs { IfOk result (λ opened. (shown opened.0).ended ≡ false) }
        ensures planned { IfOk result (λ opened. IsPlanOf opened.0 opened.1 put) }
        ensures refused { IfErr result (λ why. IsWhy
            (answer_at (sending_by key params request.now) (initial (sending_by key params request.now)) put) why) }
    {
        let size = request.file().as_slice().len();
        if size > FILE_OCTETS as usize {
            return Err(Refusal::TooLarge);
        }
        let remaining = Remaining::whole(alloc, size as u32)?;
        let mut inds = Indications::new(alloc);
        inds.push(Indication::Transaction)?;
        let request = request.copy()?;
        let header = header_of(key, &params, &request);
        let first = ControlBlock::first();
        let next = ControlBlock {
            entries: 1,
            ..first
        };
        let core = SenderCore {
            alloc,
            key,
            params,
            request,
            header,
            remaining,
            control: first,
        };
        let answer = Answer {
            inds,
            pdus: Pdus::new(alloc),
            timers: TimerOps::new(alloc),
            deposit: None,
        };
        let plan = Plan {
            next,
            remainder: Remainder::Same,
            answer,
        };
        Ok((core, plan))
    }
}
