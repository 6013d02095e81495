ghost use Rattle.std.specs.Prelude.{◌≡◌, [], ◌∷◌, ◌++◌, IfOk, OnOk, OnErr};

use cfdp_types::TimerOp;
use pdu_values::Pdu;
use std::alloc::{AllocError, Global};
use std::marker::Model;

/// The PDUs of one step, in the order in which they are sent. Contracts see their list.
#[derive(Debug, Drop)]
pub struct Pdus {
    items: Vec<Pdu>,
}

impl Model for Pdus {
    ghost use Rattle.std.specs.Prelude.{List};
    ghost use Rattle.pdu_values.specs.Pdu.{PduValue};

    ghost Value = { List PduValue };

    ghost view = { λ s. s.items.items };
}

impl Pdus {
    /// An empty list.
    pub fn new(alloc: Global) -> Pdus
        ensures { result ≡ [] }
    {
        Pdus {
            items: Vec::new(alloc),
        }
    }

    /// The PDUs, in order.
    pub fn as_slice(&self) -> &[Pdu]
        ensures { result.now ≡ self.now }
    {
        self.items.as_slice()
    }

    /// Adds a PDU at the end.
    pub fn push(&mut self, pdu: Pdu) -> Result<(), AllocError>
        ensures ok { OnOk result (self.new ≡ self.old ++ pdu ∷ []) }
        ensures err { OnErr result (self.new ≡ self.old) }
    {
        self.items.push(pdu)?;
        Ok(())
    }
}

/// The timer operations of one step, in order. Contracts see the list of them.
#[derive(Debug, Drop)]
pub struct TimerOps {
    items: Vec<TimerOp>,
}

impl Model for TimerOps {
    ghost use Rattle.std.specs.Prelude.{List};
    ghost use Rattle.cfdp_types.specs.declared.timer_op.TimerOp.{TimerOp};

    ghost Value = { List TimerOp };

    ghost view = { λ s. s.items.items };
}

impl TimerOps {
    /// An empty list.
    pub fn new(alloc: Global) -> TimerOps
        ensures { result ≡ [] }
    {
        TimerOps {
            items: Vec::new(alloc),
        }
    }

    /// The operations, in order.
    pub fn as_slice(&self) -> &[TimerOp]
        ensures { result.now ≡ self.now }
    {
        self.items.as_slice()
    }

    /// Adds an operation at the end.
    pub fn push(&mut self, op: TimerOp) -> Result<(), AllocError>
        ensures ok { OnOk result (self.new ≡ self.old ++ op ∷ []) }
        ensures err { OnErr result (self.new ≡ self.old) }
    {
        self.items.push(op)?;
        Ok(())
    }
}
