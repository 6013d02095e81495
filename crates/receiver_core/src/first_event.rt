//! Opening a reception.
use crate::plan::Plan;
use crate::receiver::ReceiverCore;
use cfdp_types::{Params, TxnKey};
use pdu_values::{Header, Pdu};
use receiver_parts::control::ControlBlock;
use receiver_parts::received_file::ReceivedFile;
use std::alloc::Global;
use txn_events::{Refusal, What, body_opens, is_body_too_large};

impl ReceiverCore {
    ghost use Rattle.std.specs.Prelude.{◌≡◌, ◌↔◌, false, [], IfOk, IfErr, IsTrue};
    ghost use Rattle.txn_events.specs.declared.event.What.TheVariants as what;
    ghost use Rattle.pdu_values.specs.Spelling.{HeaderFits};
    ghost use Rattle.receiver_table.specs.Reception.{initial};
    ghost use Rattle.receiver_table.specs.Answers.{answer_at};
    ghost use Rattle.receiver_laws.specs.LegalReceptions.{Opens};
    ghost use Rattle.receiver_core.specs.Core.{shown, reception_of, reception_by, MayOpen, IsOpenedBy, IsWhy};

    /// Whether a PDU may open the reception with a key: it has that key, and is Metadata, File Data or an EOF.
    pub fn may_open(key: TxnKey, pdu: &Pdu) -> bool
        ensures { IsTrue result ↔ MayOpen key pdu.now }
    {
        let header = pdu.header();
        body_opens(pdu.body()) && header.source == key.source && header.sequence == key.seq
    }

    // A reception before its first event.
    fn empty(alloc: Global, key: TxnKey, header: Header, params: Params) -> ReceiverCore
        requires { HeaderFits header }
        ensures reception { reception_of result ≡ reception_by key params header }
        ensures stands { shown result ≡ initial }
    {
        ReceiverCore {
            alloc,
            key,
            params,
            header,
            file: ReceivedFile::new(alloc),
            metadata: None,
            control: ControlBlock::first(),
            spare: None,
        }
    }

    /// Opens a reception with a PDU, which is also planned as its first event.
    pub fn open(
        alloc: Global,
        key: TxnKey,
        pdu: &Pdu,
        params: Params,
    ) -> Result<(ReceiverCore, Plan), Refusal>
        requires opens { MayOpen key pdu.now }
        ensures opened { IfOk result (λ opened. IsOpenedBy key params pdu.now opened.0 opened.1) }
        ensures begins { IfOk result (λ opened. Opens (reception_of opened.0) (what.Pdu pdu.now)) }
        ensures refused { IfErr result
            (λ why. IsWhy (answer_at (reception_by key params pdu.now.header) initial (what.Pdu pdu.now)) why) }
    {
        if is_body_too_large(pdu.body()) {
            return Err(Refusal::TooLarge);
        }
        let (header, _) = pdu.parts();
        let mut core = ReceiverCore::empty(alloc, key, *header, params);
        let event = What::Pdu(pdu.clone()?);
        let plan = core.plan(&event)?;
        Ok((core, plan))
    }
}
