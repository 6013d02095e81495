//! Tests of a step's indications that both ends use.
ghost use Rattle.std.specs.Prelude.{◌≡◌};
ghost use Rattle.std.specs.List.{list_any};
ghost use Rattle.indications.specs.Words.{paused_after, is_resumed, is_fault};
ghost use Rattle.indications.specs.Kinds.{kind_of, suspended_behind};

use indications::{Indication, IndicationKind};

// Whether the transaction is suspended after one more indication.
fn is_suspended_behind(before: bool, indication: &Indication) -> bool
    ensures { result ≡ suspended_behind (kind_of indication.now) before }
{
    match indication.kind() {
        IndicationKind::Suspension => true,
        IndicationKind::Resumption => false,
        _ => before,
    }
}

/// Whether the transaction is suspended after these indications; `paused` says whether it was before them.
pub fn paused_after(paused: bool, inds: &[Indication]) -> bool
    ensures { result ≡ paused_after paused inds.now }
{
    let mut now = paused;
    for indication in inds {
        now = is_suspended_behind(now, indication);
    }
    now
}

/// Whether a Resumed is among the indications.
pub fn has_resumed(inds: &[Indication]) -> bool
    ensures { result ≡ list_any is_resumed inds.now }
{
    inds.iter().any(|indication| matches!(indication.kind(), IndicationKind::Resumption))
}

/// Whether a Fault, which reports an ignored fault, is among the indications.
pub fn has_fault(inds: &[Indication]) -> bool
    ensures { result ≡ list_any is_fault inds.now }
{
    inds.iter().any(|indication| matches!(indication, Indication::Fault { .. }))
}
