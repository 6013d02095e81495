//! What a server was told: the values of a station's file.
use cfdp_types::EntityId;
use entity_config::Config;
use event_levels::Level;
use std::alloc::{AllocError, Global};

/// From where datagrams are taken.
#[derive(Clone, Copy)]
pub enum SourceRule {
    Any,
    /// From the hosts of remote entities alone, whatever the port.
    Hosts,
    /// From the addresses of remote entities alone.
    Known,
    /// PDUs from the address of their own entity alone.
    Own,
}

/// How received files are stored.
#[derive(Drop)]
pub struct StoreSettings {
    pub folder: String,
    /// Whether slashes in a received file's name lead into folders.
    pub tree: bool,
    /// Whether each source's files are kept in a folder named by its ID.
    pub by_source: bool,
    /// Whether an existing file is kept, and the new one gets another name.
    pub keeps: bool,
    /// For how many seconds storing a file is retried: 0 to 86,400.
    pub retry_s: u64,
}

/// What is kept of what is sent, and how fast files leave.
#[derive(Drop)]
pub struct SendingSettings {
    /// The file that keeps where transaction numbers begin.
    pub numbers: Option<String>,
    /// The file that keeps what waits in the outbox and what is under way from there.
    pub outbox: Option<String>,
    /// Whether the start goes on without the lines of that file that can't be parsed.
    pub outbox_repair: bool,
    /// How many octets a second may leave for the files to all remote entities without a rate of their own, 1 to
    /// 1,000,000,000; 0 without a limit.
    pub rate: u64,
}

/// Where clients command the server.
#[derive(Drop)]
pub struct ControlSettings {
    pub socket: String,
    /// The permissions of both sockets.
    pub mode: u32,
    /// The socket where clients only look at the station.
    pub status_socket: Option<String>,
}

/// Which events are appended to a file.
#[derive(Drop)]
pub struct LogSettings {
    pub file: Option<String>,
    pub level: Level,
    /// Whether commands that change something are events.
    pub commands: bool,
}

/// Which transactions are recorded.
#[derive(Drop)]
pub struct RecordSettings {
    /// Where their scripts are kept, if any is.
    pub folder: Option<String>,
    /// Whether the script of each transaction is kept, and not only of those that failed.
    pub all: bool,
    /// How many scripts are kept at most: 1 to 1,000,000.
    pub most: u64,
}

/// How many receiving lanes a remote entity has for this one.
#[derive(Clone, Copy)]
pub enum Lanes {
    /// As many as this entity has for each remote one.
    AsHere,
    /// 1 to 8.
    Number(u64),
    /// It takes any numbers.
    Free,
}

/// What a station's file says of a remote entity, beside what the entity's configuration has.
#[derive(Clone, Copy)]
pub struct RemoteSettings {
    /// How many octets of files may leave for it in a second, 1 to 1,000,000,000; 0 without a limit of its own.
    pub rate: u64,
    pub lanes: Lanes,
    /// Whether nothing is sent to it until it is released.
    pub held: bool,
}

/// How many receiving lanes a remote entity has for this one, by its ID.
#[derive(Clone, Copy)]
pub struct PeerLanes {
    pub remote: EntityId,
    /// 1 to 8, or `None` if the entity takes any numbers.
    pub lanes: Option<u64>,
}

/// Where a station listens, and what it takes.
#[derive(Drop)]
pub struct StationSettings {
    /// The address that the server listens at: `A.B.C.D:PORT`.
    pub bind: String,
    /// How many workers bring datagrams to their lanes: 1 to 16.
    pub workers: u64,
    /// How many octets of datagrams that a busy lane can't take yet are kept at most: 0 to 1,000,000,000,000.
    pub park: u64,
    /// Whether nothing is sent to any remote entity until it is released.
    pub hold: bool,
    pub sources: SourceRule,
    /// Whether each transaction whose journal is full is abandoned, and not only those of the outbox.
    pub abandon_full: bool,
}

/// What a server was told.
#[derive(Drop)]
pub struct Settings {
    pub station: StationSettings,
    pub store: StoreSettings,
    pub sending: SendingSettings,
    /// Where clients command the server. Without it lines of the standard input do, and it takes no bundles itself.
    pub control: Option<ControlSettings>,
    pub log: LogSettings,
    pub record: RecordSettings,
    /// In the order of the tables, which is that of the entity's configuration. Without it all have the defaults.
    pub remotes: Vec<RemoteSettings>,
}

impl Settings {
    /// What a server is told that has no station's file: its address, its folder, and how many workers it has.
    pub fn plain(
        alloc: Global,
        bind: &str,
        folder: &str,
        workers: u64,
    ) -> Result<Settings, AllocError> {
        Ok(Settings {
            station: StationSettings {
                bind: String::from_str(alloc, bind)?,
                workers,
                park: 64_000_000,
                hold: false,
                sources: SourceRule::Any,
                abandon_full: false,
            },
            store: StoreSettings {
                folder: String::from_str(alloc, folder)?,
                tree: false,
                by_source: false,
                keeps: false,
                retry_s: 0,
            },
            sending: SendingSettings {
                numbers: None,
                outbox: None,
                outbox_repair: false,
                rate: 0,
            },
            control: None,
            log: LogSettings {
                file: None,
                level: Level::Detail,
                commands: false,
            },
            record: RecordSettings {
                folder: None,
                all: false,
                most: 1_000,
            },
            remotes: Vec::new(alloc),
        })
    }

    /// The receiving lanes of the remote entities that have another number of them than this one.
    pub fn peer_lanes(&self, alloc: Global, config: &Config) -> Result<Vec<PeerLanes>, AllocError> {
        let mut peers = Vec::new(alloc);
        let mut place = 0usize;
        for remote in &self.remotes {
            let lanes = match remote.lanes {
                Lanes::AsHere => None,
                Lanes::Number(number) => Some(Some(number)),
                Lanes::Free => Some(None),
            };
            if let (Some(lanes), Some(peer)) = (lanes, config.remote_at(place)) {
                peers.push(PeerLanes {
                    remote: peer.id,
                    lanes,
                })?;
            }
            place = place.saturating_add(1);
        }
        Ok(peers)
    }
}
