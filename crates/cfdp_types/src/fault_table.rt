ghost use Rattle.std.specs.Prelude.{◌≡◌};
ghost use Rattle.cfdp_types.specs.Handlers.{is_allowed};

use crate::condition::Condition;
use crate::names::{Handler, Role};
use std::marker::Model;

/// The fault handler for each fault that a transaction can meet.
#[derive(Clone, Copy, Debug, PartialEq, Eq)]
pub struct Handlers {
    pub positive_ack_limit: Handler,
    pub filestore_rejection: Handler,
    pub file_checksum_failure: Handler,
    pub file_size_error: Handler,
    pub nak_limit: Handler,
    pub inactivity: Handler,
    pub check_limit: Handler,
    pub unsupported_checksum_type: Handler,
}

impl Handlers {
    ghost use Rattle.std.specs.Prelude.{◌≡◌};
    ghost use Rattle.cfdp_types.specs.Handlers.{handlers_with};

    /// Every fault cancels the transaction.
    const CANCEL: Handlers = Handlers {
        positive_ack_limit: Handler::Cancel,
        filestore_rejection: Handler::Cancel,
        file_checksum_failure: Handler::Cancel,
        file_size_error: Handler::Cancel,
        nak_limit: Handler::Cancel,
        inactivity: Handler::Cancel,
        check_limit: Handler::Cancel,
        unsupported_checksum_type: Handler::Cancel,
    };

    // These handlers, with the one for `condition` replaced; unchanged where a condition has no handler.
    fn with(mut self, condition: Condition, handler: Handler) -> Handlers
        ensures { result ≡ handlers_with self condition handler }
    {
        match condition {
            Condition::POSITIVE_ACK_LIMIT => self.positive_ack_limit = handler,
            Condition::FILESTORE_REJECTION => self.filestore_rejection = handler,
            Condition::FILE_CHECKSUM_FAILURE => self.file_checksum_failure = handler,
            Condition::FILE_SIZE_ERROR => self.file_size_error = handler,
            Condition::NAK_LIMIT => self.nak_limit = handler,
            Condition::INACTIVITY => self.inactivity = handler,
            Condition::CHECK_LIMIT => self.check_limit = handler,
            Condition::UNSUPPORTED_CHECKSUM_TYPE => self.unsupported_checksum_type = handler,
            _ => {}
        }
        self
    }
}

/// What one end of a transaction does at each fault. Contracts see the role and the handlers; the role
/// allows each of them.
#[derive(Clone, Copy, Debug, PartialEq, Eq)]
pub struct FaultTable {
    role: Role,
    handlers: Handlers,
}

impl Model for FaultTable {
    ghost use Rattle.cfdp_types.specs.Handlers.{FaultTableValue, IsFaultTable};

    ghost Value = { FaultTableValue };

    ghost view = { λ t. record { role = t.role; handlers = t.handlers } };

    ghost invariant = { λ t. IsFaultTable (record { role = t.role; handlers = t.handlers }) };

    ghost inverse = { λ v. record { role = v.role; handlers = v.handlers } };
}

impl FaultTable {
    ghost use Rattle.std.specs.Prelude.{◌≡◌, ℕ, IfOk, IsOk, IsTrue, ◌↔◌};
    ghost use Rattle.cfdp_types.specs.Handlers.{AreAllowed, IsFaultTable, act, handler_in, has_handler, is_allowed, with_handler};

    /// The table of a role with the handlers of the pairs (a later pair wins); it cancels at every other fault.
    pub fn new(role: Role, pairs: &[(Condition, Handler)]) -> Result<FaultTable, HandlerNotAllowed>
        ensures allowed { IsOk result ↔ AreAllowed role pairs.now }
        ensures role { IfOk result (λ table. table.role ≡ role) }
        ensures handlers { IfOk result (λ table. (c : ℕ) → handler_in table c ≡ act pairs.now c) }
    {
        let mut table = FaultTable::cancelling(role);
        for &(condition, handler) in pairs {
            table = table.with(condition, handler)?;
        }
        Ok(table)
    }

    /// This table with another handler for one condition. The condition must be a fault.
    pub fn with(
        self,
        condition: Condition,
        handler: Handler,
    ) -> Result<FaultTable, HandlerNotAllowed>
        ensures allowed { IsOk result ↔ IsTrue (is_allowed self.role condition handler) }
        ensures table { IfOk result (λ table. table ≡ with_handler self condition handler) }
    {
        if !self.role.allows(condition, handler) {
            return Err(HandlerNotAllowed);
        }
        Ok(FaultTable {
            role: self.role,
            handlers: self.handlers.with(condition, handler),
        })
    }

    // The table of any role in which every fault cancels.
    fn cancelling(role: Role) -> FaultTable
        ensures role { result.role ≡ role }
        ensures handlers { (c : ℕ) → handler_in result c ≡ Handler.Cancel }
    {
        FaultTable {
            role,
            handlers: Handlers::CANCEL,
        }
    }

    /// The role that the table is for.
    pub fn role(&self) -> Role
        ensures role { result ≡ self.now.role }
        ensures handlers { IsFaultTable self.now }
    {
        self.role
    }

    /// The handler of a fault; `Cancel` for a condition that is not a fault.
    pub fn action(&self, condition: Condition) -> Handler
        ensures handler { result ≡ handler_in self.now condition }
        ensures allowed { IsTrue (has_handler condition) → IsTrue (is_allowed self.now.role condition result) }
    {
        let handlers = self.handlers;
        match condition {
            Condition::POSITIVE_ACK_LIMIT => handlers.positive_ack_limit,
            Condition::FILESTORE_REJECTION => handlers.filestore_rejection,
            Condition::FILE_CHECKSUM_FAILURE => handlers.file_checksum_failure,
            Condition::FILE_SIZE_ERROR => handlers.file_size_error,
            Condition::NAK_LIMIT => handlers.nak_limit,
            Condition::INACTIVITY => handlers.inactivity,
            Condition::CHECK_LIMIT => handlers.check_limit,
            Condition::UNSUPPORTED_CHECKSUM_TYPE => handlers.unsupported_checksum_type,
            _ => Handler::Cancel,
        }
    }
}

/// The role does not allow this handler for the condition, or the condition is not a fault.
#[derive(Clone, Copy, Debug, PartialEq, Eq)]
pub struct HandlerNotAllowed;

impl HandlerNotAllowed {
    /// The refusal's number.
    pub fn number(self) -> u8
        ensures { result ≡ 1 }
    {
        1
    }
}

impl Role {
    /// Whether a fault table of this role may name the handler for the condition.
    pub fn allows(self, condition: Condition, handler: Handler) -> bool
        ensures { result ≡ is_allowed self condition handler }
    {
        match condition {
            Condition::POSITIVE_ACK_LIMIT
            | Condition::NAK_LIMIT
            | Condition::INACTIVITY
            | Condition::CHECK_LIMIT => self != Role::RecvOne || handler != Handler::Suspend,
            Condition::FILESTORE_REJECTION
            | Condition::FILE_CHECKSUM_FAILURE
            | Condition::FILE_SIZE_ERROR
            | Condition::UNSUPPORTED_CHECKSUM_TYPE => {
                matches!(handler, Handler::Cancel | Handler::Abandon)
            }
            _ => false,
        }
    }
}
