ghost use Rattle.std.specs.Prelude.{◌≡◌, ◌<◌};

use std::marker::Model;

/// A condition code, 0 to 15: why a transaction ended, or which fault was declared.
#[derive(Clone, Copy, Debug, PartialEq, Eq)]
pub struct Condition {
    code: u8,
}

impl Model for Condition {
    ghost use Rattle.std.specs.Prelude.{ℕ, ◌<◌};

    ghost Value = { ℕ };

    ghost view = { λ c. c.code };

    ghost invariant = { λ c. c.code < 16 };

    ghost inverse = { λ n. record { code = n } };
}

impl Condition {
    /// No fault.
    pub const NO_ERROR: Condition = Condition { code: 0 };

    pub const POSITIVE_ACK_LIMIT: Condition = Condition { code: 1 };

    pub const KEEP_ALIVE_LIMIT: Condition = Condition { code: 2 };

    pub const INVALID_TRANSMISSION_MODE: Condition = Condition { code: 3 };

    pub const FILESTORE_REJECTION: Condition = Condition { code: 4 };

    pub const FILE_CHECKSUM_FAILURE: Condition = Condition { code: 5 };

    pub const FILE_SIZE_ERROR: Condition = Condition { code: 6 };

    pub const NAK_LIMIT: Condition = Condition { code: 7 };

    pub const INACTIVITY: Condition = Condition { code: 8 };

    pub const INVALID_FILE_STRUCTURE: Condition = Condition { code: 9 };

    pub const CHECK_LIMIT: Condition = Condition { code: 10 };

    pub const UNSUPPORTED_CHECKSUM_TYPE: Condition = Condition { code: 11 };

    pub const SUSPEND_REQUEST: Condition = Condition { code: 14 };

    pub const CANCEL_REQUEST: Condition = Condition { code: 15 };

    /// The condition with this code.
    pub fn new(code: u8) -> Condition
        requires { code < 16 }
        ensures { result ≡ code }
    {
        Condition { code }
    }

    /// The condition code.
    pub fn code(self) -> u8
        ensures value { result ≡ self }
        ensures below { result < 16 }
    {
        self.code
    }
}
