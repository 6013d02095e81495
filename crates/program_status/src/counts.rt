//! What a server counts of transactions and files, if that is asked for.
use cfdp_types::{Class as PduClass, Condition, EntityId, TxnKey};
use entity_config::Config;
use entity_routing::{Place, lanes_of};
use indications::{Bundle, Indication};
use program_tallies::{Class, Ended, EndedCounts, Files, Role, is_whole};
use shared_entity::Entity;
use shared_lanes::Names;
use std::alloc::{AllocError, Global};
use std::sync::Wait;

// How many transactions of a lane are followed until their ends and classes were seen. If there are more, the earliest
// are no longer followed.
const FOLLOWED: usize = 16;

// How a transaction ended: its condition, and whether its file came whole and was retained.
#[derive(Clone, Copy)]
struct End {
    condition: Condition,
    is_whole: bool,
}

// A transaction that is followed.
#[derive(Clone, Copy)]
struct Followed {
    key: TxnKey,
    class: Class,
    /// The size of a file being sent, if it is known, or how many octets of one being received arrived, each counted
    /// once.
    octets: Option<u64>,
    /// Its end, while its class isn't known.
    end: Option<End>,
}

/// What a server counts of transactions and files: those that ended, those that came whole, and the octets that arrived
/// of each file being received.
#[derive(Drop)]
pub struct StationCounts {
    local: EntityId,
    /// The followed transactions of each lane of each user.
    users: Vec<Vec<Vec<Followed>>>,
    /// Transactions that were opened and abandoned to use up their numbers, and whose ends weren't seen yet. None is
    /// counted.
    skipped: Vec<TxnKey>,
    /// Whether the class of one of them isn't known.
    lacks_class: bool,
    pub(crate) ended: EndedCounts,
    pub(crate) sent: Files,
    pub(crate) received: Files,
}

impl StationCounts {
    /// Nothing was counted so far, for all lanes of a configuration's users.
    pub fn new(alloc: Global, config: &Config) -> Result<StationCounts, AllocError> {
        let mut users = Vec::with_capacity(alloc, config.users())?;
        for user in 0..config.users() {
            let mut lanes = Vec::new(alloc);
            for _ in 0..lanes_of(config, user) {
                lanes.push(Vec::with_capacity(alloc, FOLLOWED)?)?;
            }
            users.push(lanes)?;
        }
        Ok(StationCounts {
            local: config.entity().local,
            users,
            skipped: Vec::new(alloc),
            lacks_class: false,
            ended: EndedCounts::new(alloc)?,
            sent: Files::default(),
            received: Files::default(),
        })
    }

    /// Notes that a Put opened a transaction in a user's lane, with a file of so many octets.
    pub fn open(&mut self, place: Place, key: TxnKey, class: PduClass, size: u64) {
        let Some(lane) = lane_in(&mut self.users, place.user, place.lane) else {
            return;
        };
        let followed = Followed {
            key,
            class: class_of(class),
            octets: Some(size),
            end: None,
        };
        let left = follow(lane, followed);
        self.count_left(left);
    }

    /// Notes that a transaction was opened to use up its number, so it isn't counted. If memory runs out, it is.
    pub fn skip(&mut self, key: TxnKey) {
        let _has_memory = self.skipped.push(key);
    }

    /// Counts what a bundle says.
    pub fn note(&mut self, bundle: &Bundle) {
        let Some(lane) = lane_in(&mut self.users, bundle.user, bundle.lane) else {
            return;
        };
        let known = taken_from(lane, bundle.key);
        let followed = known.unwrap_or(unknown_one(bundle.key, role_of(self.local, bundle.key)));
        let followed = noted(followed, bundle.inds.as_slice());
        let (class, end) = (followed.class, followed.end);
        match end {
            Some(end) if is_known(class) => self.count(followed, end),
            _ => {
                self.lacks_class = self.lacks_class || !is_known(class);
                self.follow_in(bundle.user, bundle.lane, followed);
            }
        }
    }

    // Follows a transaction of a lane, and counts the one that is dropped for it.
    fn follow_in(&mut self, user: usize, lane: usize, followed: Followed) {
        let left = match lane_in(&mut self.users, user, lane) {
            Some(lane) => follow(lane, followed),
            None => None,
        };
        self.count_left(left);
    }

    /// Asks the entity for the classes that aren't known, and counts the transactions that ended meanwhile. If a lane
    /// runs another transaction already, the class stays unknown.
    pub fn settle<N: Names, R: Wait + Copy>(&mut self, rt: &R, entity: &Entity<N, R>) {
        if !self.lacks_class {
            return;
        }
        self.lacks_class = false;
        for user in 0..self.users.len() {
            for lane in 0..lanes_of(entity.config(), user) {
                self.settle_lane(rt, entity, Place { user, lane });
            }
        }
    }

    /// How many octets of a lane's transaction arrived, each counted once.
    pub fn arrived(&self, place: Place, key: TxnKey) -> u64 {
        let lane = self
            .users
            .get(place.user)
            .and_then(|lanes| lanes.get(place.lane));
        match lane {
            Some(lane) => {
                for followed in lane.as_slice() {
                    if followed.key == key {
                        return followed.octets.unwrap_or(0);
                    }
                }
                0
            }
            None => 0,
        }
    }

    // Asks for the classes that aren't known in one lane, and counts its transactions that ended meanwhile.
    fn settle_lane<N: Names, R: Wait + Copy>(
        &mut self,
        rt: &R,
        entity: &Entity<N, R>,
        place: Place,
    ) {
        for _ in 0..FOLLOWED {
            let Some(lane) = lane_in(&mut self.users, place.user, place.lane) else {
                return;
            };
            let Some(unclassed) = unclassed_in(lane) else {
                return;
            };
            let _before = taken_from(lane, unclassed.key);
            let class = class_at(rt, entity, place, unclassed.key);
            let (followed, end) = (Followed { class, ..unclassed }, unclassed.end);
            match end {
                Some(end) => self.count(followed, end),
                None => {
                    self.follow_in(place.user, place.lane, followed);
                    if !is_known(class) {
                        return;
                    }
                }
            }
        }
    }

    // Counts a transaction that is no longer followed, if it has ended.
    fn count_left(&mut self, left: Option<Followed>) {
        if let Some(followed) = left {
            let end = followed.end;
            if let Some(end) = end {
                self.count(followed, end);
            }
        }
    }

    // Counts a transaction that ended, unless it was opened to use up its number. A file whose size isn't known isn't
    // counted.
    fn count(&mut self, followed: Followed, end: End) {
        if self.was_skipped(followed.key) {
            return;
        }
        let role = role_of(self.local, followed.key);
        self.ended.note(Ended {
            role,
            class: followed.class,
            condition: end.condition.code(),
        });
        if end.is_whole
            && let Some(octets) = followed.octets
        {
            match role {
                Role::Sender => self.sent.add(octets),
                Role::Receiver => self.received.add(octets),
            }
        }
    }

    // Whether a transaction that has ended was opened to use up its number.
    fn was_skipped(&mut self, key: TxnKey) -> bool {
        let before = self.skipped.len();
        self.skipped.retain(|skipped| *skipped != key);
        self.skipped.len() < before
    }
}

// The transactions that are followed of a lane.
fn lane_in(
    users: &mut Vec<Vec<Vec<Followed>>>,
    user: usize,
    lane: usize,
) -> Option<&mut Vec<Followed>> {
    match users.get_mut(user) {
        Some(lanes) => lanes.get_mut(lane),
        None => None,
    }
}

// Follows a transaction. Returns the one that is dropped for it, or itself if memory for it runs out.
fn follow(lane: &mut Vec<Followed>, followed: Followed) -> Option<Followed> {
    let earliest = if lane.len() >= FOLLOWED {
        Some(lane.remove(0))
    } else {
        None
    };
    let kept = followed;
    if lane.push(kept).is_ok() {
        earliest
    } else {
        Some(followed)
    }
}

// Takes a transaction out of those that are followed, if it is among them.
fn taken_from(lane: &mut Vec<Followed>, key: TxnKey) -> Option<Followed> {
    match lane.iter().position(|followed| followed.key == key) {
        Some(place) => Some(lane.remove(place)),
        None => None,
    }
}

// A transaction of which nothing is known yet: of a file being received nothing arrived, and the size of one being sent
// is unknown.
fn unknown_one(key: TxnKey, role: Role) -> Followed {
    Followed {
        key,
        class: Class::Unknown,
        octets: match role {
            Role::Sender => None,
            Role::Receiver => Some(0),
        },
        end: None,
    }
}

// Which end of a transaction runs here.
fn role_of(local: EntityId, key: TxnKey) -> Role {
    if key.source == local {
        Role::Sender
    } else {
        Role::Receiver
    }
}

// The first transaction of a lane whose class isn't known.
fn unclassed_in(lane: &[Followed]) -> Option<Followed> {
    for followed in lane {
        if followed.class == Class::Unknown {
            return Some(*followed);
        }
    }
    None
}

// What is known of a transaction after indications.
fn noted(followed: Followed, inds: &[Indication]) -> Followed {
    let mut followed = followed;
    for indication in inds {
        note_indication(&mut followed, indication);
    }
    followed
}

// Whether a class is known.
fn is_known(class: Class) -> bool {
    class != Class::Unknown
}

// Notes what an indication says of a transaction.
fn note_indication(followed: &mut Followed, indication: &Indication) {
    match indication {
        Indication::FileSegmentRecv { length, .. } => {
            if let Some(octets) = followed.octets {
                followed.octets = Some(octets.saturating_add(u64::from(*length)));
            }
        }
        Indication::TransactionFinished {
            condition,
            delivery,
            status,
        } => {
            followed.end = Some(End {
                condition: *condition,
                is_whole: is_whole(*condition, *delivery, *status),
            });
        }
        Indication::Abandoned { condition, .. } => {
            followed.end = Some(End {
                condition: *condition,
                is_whole: false,
            });
        }
        _ => {}
    }
}

// The class of a transaction that a lane runs, or ran last.
fn class_at<N: Names, R: Wait + Copy>(
    rt: &R,
    entity: &Entity<N, R>,
    place: Place,
    key: TxnKey,
) -> Class {
    match entity.glance(rt, place) {
        Ok(Some(glance)) if glance.key == key => class_of(glance.class),
        _ => Class::Unknown,
    }
}

fn class_of(class: PduClass) -> Class {
    match class {
        PduClass::One => Class::One,
        PduClass::Two => Class::Two,
    }
}
