//! Where numbers and labels are in lines.
ghost use Rattle.std.specs.Prelude.{◌≡◌, None, codes, option_map, option_and_then};
ghost use Rattle.json.specs.Find.{as_bool, get};
ghost use Rattle.json.specs.Value.{value_view};
ghost use Rattle.web_lines.specs.Labels.{all_labels, both_labels, entity_labels, label_at, labels_at, one_label, said_label, said_labels, with_label};
ghost use Rattle.web_lines.specs.Numbers.{IsNumberAt, IsWholeNumber, bit, spot_of};

use crate::kind::Kind;
use crate::labels::{Label, Labels};
use json::Value;
use station_names::member;

/// Where a number is in a line.
#[derive(Clone, Copy, Debug)]
pub(crate) enum Place {
    /// A member.
    Member(&'static str),
    /// A member of the member `counters`.
    Counted(&'static str),
    /// A member that is true or false: 1 if it is true.
    Truth(&'static str),
    /// A member that is present: 1.
    Known(&'static str),
}

impl Place {
    /// The number there, if there is one.
    pub(crate) fn number_in(self, value: &Value<'_>) -> Option<u64>
        ensures { IsNumberAt (spot_of self) (value_view value.now) result }
    {
        match self {
            Place::Member(name) => whole_in(value, name),
            Place::Counted(name) => counter_in(value, name),
            Place::Truth(name) => truth_in(value, name),
            Place::Known(name) => known_in(value, name),
        }
    }
}

/// The whole number of a member.
pub(crate) fn whole_in(value: &Value<'_>, name: &str) -> Option<u64>
    ensures { IsWholeNumber (get name.now (value_view value.now)) result }
{
    match value.get(name) {
        Some(member) => member.as_u64(),
        None => None,
    }
}

// The whole number of a member of the member `counters`.
fn counter_in(value: &Value<'_>, name: &str) -> Option<u64>
    ensures { IsWholeNumber (option_and_then (get name.now) (get (codes "counters") (value_view value.now))) result }
{
    match value.get(member::COUNTERS) {
        Some(counters) => whole_in(counters, name),
        None => None,
    }
}

// 1 where a member is true, and 0 where it is false.
fn truth_in(value: &Value<'_>, name: &str) -> Option<u64>
    ensures { result ≡ option_map bit (option_and_then as_bool (get name.now (value_view value.now))) }
{
    match value.get(name) {
        Some(member) => bit_of(member.as_bool()),
        None => None,
    }
}

fn bit_of(truth: Option<bool>) -> Option<u64>
    ensures { result ≡ option_map bit truth }
{
    match truth {
        Some(true) => Some(1),
        Some(false) => Some(0),
        None => None,
    }
}

// 1 where there is such a member.
fn known_in(value: &Value<'_>, name: &str) -> Option<u64>
    ensures { result ≡ option_map (λ value. 1) (get name.now (value_view value.now)) }
{
    match value.get(name) {
        Some(_) => Some(1),
        None => None,
    }
}

/// The labels of the number at a place of a line; None if the line lacks what they say. It then has no number.
pub(crate) fn labels_in<'a>(value: &Value<'a>, kind: Kind, place: Place) -> Option<Labels<'a>>
    ensures { option_map said_labels result ≡ labels_at kind (spot_of place) (value_view value.now) }
{
    match kind {
        Kind::User => one_label(label_in(value, "user", member::NAME)),
        Kind::Remote => one_label(label_in(value, "remote", member::ID)),
        Kind::Refusal => refusal_labels(value),
        Kind::Parked | Kind::Transaction => lane_labels(value),
        Kind::Ended => end_labels(value),
        Kind::Delivered => one_label(label_in(value, "role", member::ROLE)),
        Kind::Entity => entity_labels(value, place),
        _ => Some(Labels::Bare),
    }
}

// One label, if it is present.
fn one_label(label: Option<Label<'_>>) -> Option<Labels<'_>>
    ensures { option_map said_labels result ≡ one_label (option_map said_label label.entry) }
{
    match label {
        Some(label) => Some(Labels::One(label)),
        None => None,
    }
}

// The reason of a refusal, and the fault of decoding if it has one.
fn refusal_labels<'a>(value: &Value<'a>) -> Option<Labels<'a>>
    ensures { option_map said_labels result
        ≡ with_label (label_at (codes "reason") (codes "name") (value_view value.now)) (label_at (codes "fault") (codes "fault") (value_view value.now)) }
{
    let reason = label_in(value, "reason", member::NAME)?;
    match label_in(value, "fault", member::FAULT) {
        Some(fault) => Some(Labels::Two(reason, fault)),
        None => Some(Labels::One(reason)),
    }
}

// A lane and its user.
fn lane_labels<'a>(value: &Value<'a>) -> Option<Labels<'a>>
    ensures { option_map said_labels result
        ≡ both_labels (label_at (codes "user") (codes "user") (value_view value.now)) (label_at (codes "lane") (codes "lane") (value_view value.now)) }
{
    let user = label_in(value, "user", member::USER)?;
    let lane = label_in(value, "lane", member::LANE)?;
    Some(Labels::Two(user, lane))
}

// The role, the class and the condition of transactions that ended.
fn end_labels<'a>(value: &Value<'a>) -> Option<Labels<'a>>
    ensures { option_map said_labels result
        ≡ all_labels (label_at (codes "role") (codes "role") (value_view value.now)) (label_at (codes "class") (codes "class") (value_view value.now)) (label_at (codes "condition") (codes "condition") (value_view value.now)) }
{
    let role = label_in(value, "role", member::ROLE)?;
    let class = label_in(value, "class", member::CLASS)?;
    let condition = label_in(value, "condition", member::CONDITION)?;
    Some(Labels::Three(role, class, condition))
}

// The entity's number and its version, for the family that has its version.
fn entity_labels<'a>(value: &Value<'a>, place: Place) -> Option<Labels<'a>>
    ensures { option_map said_labels result ≡ entity_labels (spot_of place) (value_view value.now) }
{
    match place {
        Place::Known(_) => {
            let id = label_in(value, "id", member::ID)?;
            let version = label_in(value, "version", member::VERSION)?;
            Some(Labels::Two(id, version))
        }
        _ => Some(Labels::Bare),
    }
}

// A label of this name with the text or the number of a member.
fn label_in<'a>(value: &Value<'a>, name: &'static str, member: &str) -> Option<Label<'a>>
    ensures { option_map said_label result ≡ label_at name.now member.now (value_view value.now) }
{
    let found = value.get(member)?;
    match found.as_str() {
        Some(value) => Some(Label { name, value }),
        None => Some(Label {
            name,
            value: found.as_number()?,
        }),
    }
}
