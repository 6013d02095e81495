use cfdp_types::Params;

/// How a sending lane numbers its transactions. The numbers in between are left to the user's other sending lanes
/// and to those of the other users.
#[derive(Clone, Copy, Debug, PartialEq, Eq)]
pub struct Numbers {
    /// Where the lane begins to count its transactions.
    pub first: u64,
    /// The number of sending lanes that each user has.
    pub lanes: u64,
    /// The number of users.
    pub users: u64,
}

impl Numbers {
    ghost use Rattle.std.specs.Prelude.{◌≡◌, ◌≤◌, ◌<◌, ◌^◌, ◌*◌, IfSome, IfNone};
    ghost use Rattle.lane_table.specs.Lane.{number_after, number_at};

    /// The number of a lane's first transaction, None if it exceeds 64 bits.
    fn first_of(&self, user: usize, lane: usize) -> Option<u64>
        requires { 0 < self.now.users }
        ensures some { IfSome result (λ number. number ≡ number_at self.now user lane self.now.first) }
        ensures none { IfNone result (2 ^ 64 ≤ number_at self.now user lane self.now.first) }
    {
        let blocks = self.first.checked_mul(self.lanes)?;
        let block = blocks.checked_add(lane as u64)?;
        let base = block.checked_mul(self.users)?;
        base.checked_add(user as u64)
    }

    /// The number after that of a lane's last transaction, None if it exceeds 64 bits.
    fn after(&self, user: usize, lane: usize, last: Option<u64>) -> Option<u64>
        requires { 0 < self.now.users }
        ensures some { IfSome result (λ number. number ≡ number_after self.now user lane last) }
        ensures none { IfNone result (2 ^ 64 ≤ number_after self.now user lane last) }
    {
        match last {
            None => self.first_of(user, lane),
            Some(last) => {
                let step = self.lanes.checked_mul(self.users)?;
                last.checked_add(step)
            }
        }
    }

    /// The number after that of a lane's last transaction, None if it exceeds `greatest`.
    pub fn up_to(&self, greatest: u64, user: usize, lane: usize, last: Option<u64>) -> Option<u64>
        requires { 0 < self.now.users }
        ensures some { IfSome result (λ number. (number ≡ number_after self.now user lane last) × (number ≤ greatest)) }
        ensures none { IfNone result (greatest < number_after self.now user lane last) }
    {
        match self.after(user, lane, last) {
            Some(number) if number <= greatest => Some(number),
            _ => None,
        }
    }
}

/// Which end of its transactions a lane runs.
#[derive(Clone, Copy, Debug, PartialEq, Eq)]
pub enum LaneSide {
    /// The lane sends, with these numbers, up to the greatest that the configured sequence length holds.
    Sending { numbers: Numbers, greatest: u64 },
    /// The lane receives, with these parameters.
    Receiving(Params),
}
