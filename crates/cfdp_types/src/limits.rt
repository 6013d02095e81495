//! The greatest numbers and sizes that one entity supports. Of anything that is needed, the least number is one, unless
//! another is given here.

/// Octets in a file.
pub const FILE_OCTETS: u32 = 16_777_216;

/// Smallest configurable limit for the file octets in a File Data PDU that the entity sends.
pub const SEGMENT_OCTETS_LEAST: u16 = 256;

/// Largest configurable limit for the file octets in a File Data PDU that the entity sends.
pub const SEGMENT_OCTETS_MOST: u16 = 1_400;

/// Events in a lane's journal.
pub const JOURNAL_ENTRIES: u32 = 262_144;

/// Places at the end of a lane's journal that are reserved for the file store's answer and for Abandon.
pub const JOURNAL_ENTRIES_KEPT: u32 = 2;

/// Local users.
pub const USERS: usize = 16;

/// Source entities that deliver their files to one user.
pub const SOURCES_OF_A_USER: usize = 8;

/// Remote entities.
pub const REMOTES: usize = 128;

/// Receiving lanes for each source entity.
pub const RECEIVING_LANES: usize = 8;

/// Sending lanes for each user.
pub const SENDING_LANES: usize = 32;

/// Bundles in a user's queue.
pub const QUEUE_BUNDLES: usize = 1_024;

/// Segment requests in a NAK PDU that the entity sends.
pub const NAK_REQUESTS: usize = 64;

/// Expirations of one timer, the last of which declares its fault.
pub const EXPIRATIONS: u8 = 255;

/// Milliseconds that a timer may run: one day.
pub const TIMER_MILLISECONDS: u32 = 86_400_000;

/// Octets in a file name.
pub const NAME_OCTETS: usize = 255;

/// Octets in a message to the user.
pub const MESSAGE_OCTETS: usize = 255;

/// Messages to the user in a Put request.
pub const MESSAGES: usize = 4;

/// Octets of an entity ID and of a transaction sequence number in a header.
pub const ID_OCTETS: u8 = 8;

/// The greatest entity ID, and the greatest first sequence number of a sending lane, that a configuration
/// may give.
pub const CONFIGURED_NUMBER: u64 = 9_223_372_036_854_775_807;

/// Octets in a user's name.
pub const USER_NAME_OCTETS: usize = 32;

/// Pushes into one user's queue in one run. The laws of the queue assume fewer; no run reaches
/// this number.
pub const QUEUE_PUSHES: u64 = 4_611_686_018_427_387_904;
