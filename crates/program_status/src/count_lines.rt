//! The lines of a status that show what is counted.
use crate::counts::StationCounts;
use crate::status::Shown;
use entity_routing::Place;
use indications::Side;
use lane_table::Glance;
use program_tallies::{CONDITIONS, Class, Ended, Files, Role, Tallies, missing_of};
use station_lines::{
    DeliveredStatus, EndedStatus, Heard, Moment, push_delivered, push_ended, push_store,
};
use std::alloc::{AllocError, Global};

const ROLES: [(Role, Side); 2] = [
    (Role::Sender, Side::Sender),
    (Role::Receiver, Side::Receiver),
];

const CLASSES: [Class; 3] = [Class::Unknown, Class::One, Class::Two];

/// Adds a line for each way in which transactions ended, for the files that came whole in each role, and for the last
/// file that the store was given; nothing if nothing is counted.
pub(crate) fn push_counts(
    alloc: Global,
    text: &mut String,
    shown: &Shown<'_>,
) -> Result<(), AllocError> {
    let Some(counts) = shown.counts else {
        return Ok(());
    };
    for (role, end) in ROLES {
        for class in CLASSES {
            push_ends(alloc, text, counts, (role, end), class)?;
        }
    }
    push_files(alloc, text, Side::Sender, counts.sent)?;
    push_files(alloc, text, Side::Receiver, counts.received)?;
    match &shown.last_store {
        Some(store) => push_store(alloc, text, store),
        None => Ok(()),
    }
}

/// How many octets the file that a lane receives lacks, if that is counted.
pub(crate) fn missing_in(shown: &Shown<'_>, place: Place, glance: &Glance) -> Option<u64> {
    let counts = shown.counts?;
    if glance.has_ended || glance.end != Side::Receiver {
        return None;
    }
    match &glance.file {
        Some(file) => Some(missing_of(file.size, counts.arrived(place, glance.key))),
        None => None,
    }
}

/// When the remote entity at a place of the configuration was heard last, if that is noted.
pub(crate) fn heard_at(tallies: &Tallies, place: usize, now: Moment) -> Option<Heard> {
    let at = tallies.heard(place)?;
    Some(Heard {
        at: Moment(at),
        silence: now.0.saturating_sub(at),
    })
}

// Adds a line for each condition with which transactions of a role and a class ended.
fn push_ends(
    alloc: Global,
    text: &mut String,
    counts: &StationCounts,
    (role, end): (Role, Side),
    class: Class,
) -> Result<(), AllocError> {
    for condition in 0..CONDITIONS {
        let count = counts.ended.count(Ended {
            role,
            class,
            condition,
        });
        if count > 0 {
            let status = EndedStatus {
                end,
                class: class.number(),
                condition,
                count,
            };
            push_ended(alloc, text, &status)?;
        }
    }
    Ok(())
}

fn push_files(alloc: Global, text: &mut String, end: Side, files: Files) -> Result<(), AllocError> {
    let status = DeliveredStatus {
        end,
        files: files.files,
        octets: files.octets,
    };
    push_delivered(alloc, text, &status)
}
