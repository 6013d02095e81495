//! The steps and echoes of lanes are moves of the ends in a schedule.

ghost use Rattle.ends_lanes.specs.LaneMoves.{EchoesAreMoves, LanesGiveThePut, StepsAreMoves};
ghost use Rattle.ends_lanes.specs.EntityMoves.{EntityStepsAreMoves};

/// An event that a lane accepts, with what the step sends, is a move of the lane's end. So where two lanes receive only
/// PDUs that one of them has sent, the laws of schedules apply to both.
pub fn steps()
    ensures { StepsAreMoves }
{}

/// An echo that a lane sends on refusing an event is a move too.
pub fn echoes()
    ensures { EchoesAreMoves }
{}

/// Each file that a lane gives at the receiver's end is the one that was put, whatever key and stamp it is requested
/// with.
pub fn images()
    ensures { LanesGiveThePut }
{}

/// A step in an entity of one thread is such a move of the lane that accepts the event.
pub fn entity_steps()
    ensures { EntityStepsAreMoves }
{}
