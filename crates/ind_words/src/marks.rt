ghost use Rattle.std.specs.Prelude.{◌≡◌, ◌∷◌, ◌↔◌, List, IsTrue, true, false};
ghost use Rattle.indications.specs.declared.indication.Indication.{Indication};
ghost use Rattle.indications.specs.Words.{IsNext, IsNextOfSender, IsFilled, MayFinish, is_segment};
ghost use Rattle.ind_words.specs.Marks.{marks_of};

use cfdp_types::Delivery;
use indications::{Indication, IndicationKind};

/// What the indications so far, by their kinds, say about what may be issued next.
#[derive(Clone, Copy)]
pub struct Marks {
    pub opened: bool,
    pub eof_sent: bool,
    pub metadata: bool,
    pub eof_recv: bool,
    pub suspended: bool,
    pub ended: bool,
}

impl Marks {
    /// The marks before any indication.
    pub const NONE: Marks = Marks {
        opened: false,
        eof_sent: false,
        metadata: false,
        eof_recv: false,
        suspended: false,
        ended: false,
    };

    /// The marks after one more indication.
    pub fn after(self, indication: &Indication) -> Marks
        ensures { (before : List Indication) → self ≡ marks_of before → result ≡ marks_of (indication.now ∷ before) }
    {
        match indication.kind() {
            IndicationKind::Opening => Marks {
                opened: true,
                ..self
            },
            IndicationKind::EofSent => Marks {
                eof_sent: true,
                ..self
            },
            IndicationKind::EofRecv => Marks {
                eof_recv: true,
                ..self
            },
            IndicationKind::Metadata => Marks {
                metadata: true,
                ..self
            },
            IndicationKind::Suspension => Marks {
                suspended: true,
                ..self
            },
            IndicationKind::Resumption => Marks {
                suspended: false,
                ..self
            },
            IndicationKind::End(_) => Marks {
                ended: true,
                ..self
            },
            IndicationKind::Segment { .. } | IndicationKind::Notice => self,
        }
    }

    /// Whether a sender that has issued no end may issue this indication next.
    pub fn allow_sender(self, indication: &Indication) -> bool
        ensures exact { (before : List Indication) → self ≡ marks_of before
            → (IsTrue result ↔ IsNextOfSender before indication.now) }
        ensures other { result ≡ true → is_segment indication.now ≡ false }
    {
        match indication.kind() {
            IndicationKind::Opening => !self.opened,
            IndicationKind::EofSent => self.opened && !self.eof_sent,
            IndicationKind::Suspension => self.opened && !self.suspended,
            IndicationKind::Resumption => self.opened && self.suspended,
            IndicationKind::End(_) | IndicationKind::Notice => self.opened,
            IndicationKind::EofRecv | IndicationKind::Metadata | IndicationKind::Segment { .. } =>
                false,
        }
    }

    /// Whether a receiver that has issued no end may issue this indication next; false for a segment. `initial` says
    /// whether the reported segments are exactly the offsets below some size.
    pub fn allow_receiver(self, indication: &Indication, initial: bool) -> bool
        ensures exact { (before : List Indication) → self ≡ marks_of before → (IsTrue initial ↔ IsFilled before)
            → is_segment indication.now ≡ false → (IsTrue result ↔ IsNext before indication.now) }
        ensures other { result ≡ true → is_segment indication.now ≡ false }
    {
        match indication.kind() {
            IndicationKind::EofRecv => !self.eof_recv,
            IndicationKind::Metadata => !self.metadata,
            IndicationKind::Suspension => !self.suspended,
            IndicationKind::Resumption => self.suspended,
            IndicationKind::End(delivery) => self.allow_delivery(delivery, initial),
            IndicationKind::Notice => true,
            IndicationKind::Opening | IndicationKind::EofSent | IndicationKind::Segment { .. } =>
                false,
        }
    }

    // Whether a receiver may issue Transaction-Finished with this delivery code.
    fn allow_delivery(self, delivery: Delivery, initial: bool) -> bool
        ensures { (before : List Indication) → self ≡ marks_of before → (IsTrue initial ↔ IsFilled before)
            → (IsTrue result ↔ MayFinish before delivery) }
    {
        match delivery {
            Delivery::Complete => self.metadata && self.eof_recv && initial,
            Delivery::Incomplete => true,
        }
    }
}
