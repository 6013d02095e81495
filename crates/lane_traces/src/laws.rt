//! Laws of every sound lane, stated over the definitions alone.

ghost use Rattle.lane_traces.specs.Traces.{TellsHowFar};

/// A trace is true of the legal log of the lane's transaction, which has the requested key: the transaction has ended
/// exactly where all its indications are a whole word, not only the beginning of one.
pub fn traces()
    ensures { TellsHowFar }
{}
