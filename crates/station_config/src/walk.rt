//! The walk through a station's own keys: whether each has an allowed value, and which.
ghost use Rattle.std.specs.Prelude.{◌≡◌, Some, map, option_map};
ghost use Rattle.std.specs.List.{list_any};
ghost use Rattle.config_reading.specs.Texts.{is_same_text};
ghost use Rattle.station_config.specs.Station.{all_items, any_item, first_fault, fits, has, has_word, in_table, is_at, is_file, is_folders, is_known, is_layout, is_needed, is_number, is_path, is_unfit, is_word, key_fault, key_from, knows_all, meant, number_of, remote_fault, remote_from, truth_of, unfit_in, value_at, why_of, without, word_of};
ghost use Rattle.toml.specs.Data.{get_member};
ghost use Rattle.toml.specs.View.{items_view, table_view, view};

use crate::addresses::is_address;
use crate::fault::{StationFault, Why};
use crate::keys::{KEYS, KeyRow, Kind, REMOTE_KEYS};
use toml::{Table, Value};

/// The first fault of the station's own keys, in the order of `KEYS`, and then of those of the remote entities.
pub(crate) fn first_fault(top: &Table) -> Option<StationFault>
    ensures { result ≡ first_fault (table_view top.now) }
{
    match key_fault(top) {
        Some(fault) => Some(fault),
        None => remote_fault(top),
    }
}

fn key_fault(top: &Table) -> Option<StationFault>
    ensures { result ≡ key_fault (table_view top.now) }
{
    fault_among(&KEYS, top)
}

// The first key with a fault among these.
fn fault_among(rows: &[KeyRow], top: &Table) -> Option<StationFault>
    ensures { result ≡ key_from 0 (map meant rows.now) (table_view top.now) }
{
    for place in 0..rows.len() {
        if let Some(why) = why_of(top, &rows[place]) {
            return Some(StationFault::Key { place, why });
        }
    }
    None
}

fn remote_fault(top: &Table) -> Option<StationFault>
    ensures { result ≡ remote_fault (table_view top.now) }
{
    match member_of(top, "remote") {
        Some(value) => match value.as_array() {
            Some(items) => fault_in_items(items),
            None => None,
        },
        None => None,
    }
}

fn fault_in_items(items: &[Value]) -> Option<StationFault>
    ensures { result ≡ remote_from 0 (items_view items.now) }
{
    for table in 0..items.len() {
        if let Some(place) = unfit_in(&REMOTE_KEYS, &items[table]) {
            return Some(StationFault::Remote { table, place });
        }
    }
    None
}

/// The value of a member of a table, if it is there.
pub(crate) fn member_of<'t>(table: &'t Table, name: &str) -> Option<&'t Value>
    ensures { option_map (λ value. view value.now) result ≡ get_member name.now (table_view table.now) }
{
    table.get(name)
}

// What is wrong with a key or with its table, if anything.
fn why_of(top: &Table, row: &KeyRow) -> Option<Why>
    ensures { result ≡ why_of (meant row.now) (table_view top.now) }
{
    match member_of(top, row.0) {
        Some(found) => match found.as_table() {
            Some(table) => why_in(table, row),
            None => Some(Why::NoTable),
        },
        None => without(row),
    }
}

// What is wrong with a key that isn't there, if anything.
fn without(row: &KeyRow) -> Option<Why>
    ensures { result ≡ without (meant row.now) }
{
    if is_needed(row.2) {
        Some(Why::Missing)
    } else {
        None
    }
}

fn is_needed(kind: Kind) -> bool
    ensures { result ≡ is_needed kind }
{
    matches!(kind, Kind::Address | Kind::Path)
}

// The same in its table.
fn why_in(table: &Table, row: &KeyRow) -> Option<Why>
    ensures { result ≡ in_table (meant row.now) (Some (table_view table.now)) }
{
    if !knows_all(table, row.0) {
        return Some(Why::UnknownKey);
    }
    match member_of(table, row.1) {
        Some(value) if fits(value, row) => None,
        Some(_) => Some(Why::Unfit),
        None => without(row),
    }
}

// Whether each key of a table is one of those that are known there.
fn knows_all(table: &Table, section: &str) -> bool
    ensures { result ≡ knows_all section.now (table_view table.now) }
{
    table.keys().all(|name| is_known(section, name.as_str()))
}

/// Whether a key is known in one of the station's own tables.
pub fn is_known(section: &str, name: &str) -> bool
    ensures { result ≡ is_known section.now name.now }
{
    is_among(&KEYS, section, name)
}

fn is_among(rows: &[KeyRow], section: &str, name: &str) -> bool
    ensures { result ≡ list_any (is_at section.now name.now) (map meant rows.now) }
{
    rows.iter().any(|row| row.0 == section && row.1 == name)
}

// The first of the station's keys in a table `[[remote]]` whose value isn't allowed, if there is one.
fn unfit_in(rows: &[KeyRow], item: &Value) -> Option<usize>
    ensures { result ≡ unfit_in (map meant rows.now) (view item.now) }
{
    let table = item.as_table()?;
    for place in 0..rows.len() {
        if is_unfit(table, &rows[place]) {
            return Some(place);
        }
    }
    None
}

fn is_unfit(table: &Table, row: &KeyRow) -> bool
    ensures { result ≡ is_unfit (meant row.now) (table_view table.now) }
{
    match member_of(table, row.1) {
        Some(value) => !fits(value, row),
        None => false,
    }
}

// Whether a value is allowed for a key.
fn fits(value: &Value, row: &KeyRow) -> bool
    ensures { result ≡ fits (meant row.now) (view value.now) }
{
    match row.2 {
        Kind::Address => match value.as_str() {
            Some(text) => is_address(text),
            None => false,
        },
        Kind::Path | Kind::Perhaps => is_path(value),
        Kind::Beside => is_path(value) || value.as_bool() == Some(false),
        Kind::Number { least, most, .. } => is_number(value, least, most),
        Kind::Truth { .. } => value.is_bool(),
        Kind::Word => match value.as_str() {
            Some(word) => is_one_of(word, row.3),
            None => false,
        },
        Kind::Layout => is_layout(value),
        Kind::Lanes { most } => is_number(value, 1, most) || is_word(value, "none"),
    }
}

fn is_one_of(text: &str, words: &[&str]) -> bool
    ensures { result ≡ list_any (λ word. is_same_text word text.now) (map (λ word. word.now) words.now) }
{
    words.iter().any(|word| *word == text)
}

fn is_path(value: &Value) -> bool
    ensures { result ≡ is_path (view value.now) }
{
    match value.as_str() {
        Some(path) => is_file(path.as_bytes()),
        None => false,
    }
}

// Whether a path may be that of a file: it isn't empty, and ends neither with a slash nor with a dot.
fn is_file(path: &[u8]) -> bool
    ensures { result ≡ is_file path.now }
{
    match path {
        [] | [.., b'/' | b'.'] => false,
        _ => true,
    }
}

// Whether a value is this word.
fn is_word(value: &Value, word: &str) -> bool
    ensures { result ≡ is_word word.now (view value.now) }
{
    match value.as_str() {
        Some(text) => word == text,
        None => false,
    }
}

fn is_number(value: &Value, least: u64, most: u64) -> bool
    ensures { result ≡ is_number least most (view value.now) }
{
    let Some(number) = value.as_integer() else {
        return false;
    };
    match u64::try_from(number) {
        Ok(number) => (least..=most).contains(&number),
        Err(_) => false,
    }
}

fn is_layout(value: &Value) -> bool
    ensures { result ≡ is_layout (view value.now) }
{
    match value.as_array() {
        Some(items) => are_folders(items),
        None => is_folders(value) || is_word(value, "flat"),
    }
}

fn are_folders(items: &[Value]) -> bool
    ensures { result ≡ all_items is_folders (items_view items.now) }
{
    items.iter().all(|item| is_folders(item))
}

// Whether a value names a layout with folders.
fn is_folders(value: &Value) -> bool
    ensures { result ≡ is_folders (view value.now) }
{
    is_word(value, "tree") || is_word(value, "by-source")
}

/// The value of a key, if it is there.
pub(crate) fn value_of<'t>(top: &'t Table, row: &KeyRow) -> Option<&'t Value>
    ensures { option_map (λ value. view value.now) result ≡ value_at row.now.0.now row.now.1.now (table_view top.now) }
{
    let table = member_of(top, row.0)?.as_table()?;
    member_of(table, row.1)
}

/// The number that a value gives to a key, or its default.
pub(crate) fn number_of(value: Option<&Value>, kind: Kind) -> u64
    ensures { result ≡ number_of kind (option_map (λ value. view value.now) value.entry) }
{
    match (value, kind) {
        (Some(value), _) => match value.as_integer() {
            Some(number) => u64::try_from(number).unwrap_or(0),
            None => 0,
        },
        (None, Kind::Number { otherwise, .. }) => otherwise,
        (None, _) => 0,
    }
}

/// Whether a value says true, or the default does.
pub(crate) fn truth_of(value: Option<&Value>, kind: Kind) -> bool
    ensures { result ≡ truth_of kind (option_map (λ value. view value.now) value.entry) }
{
    match (value, kind) {
        (Some(value), _) => value.as_bool() == Some(true),
        (None, Kind::Truth { otherwise }) => otherwise,
        (None, _) => false,
    }
}

/// The word that a value is; empty if it isn't one.
pub(crate) fn word_of<'t>(value: Option<&'t Value>) -> &'t str
    ensures { result.now ≡ word_of (option_map (λ value. view value.now) value.entry) }
{
    match value {
        Some(value) => match value.as_str() {
            Some(word) => word,
            None => "",
        },
        None => "",
    }
}

/// Whether a layout has this word.
pub(crate) fn has_word(value: Option<&Value>, word: &str) -> bool
    ensures { result ≡ has (has_word word.now) (option_map (λ value. view value.now) value.entry) }
{
    match value {
        Some(value) => has_it(value, word),
        None => false,
    }
}

fn has_it(value: &Value, word: &str) -> bool
    ensures { result ≡ has_word word.now (view value.now) }
{
    match value.as_array() {
        Some(items) => is_in_list(items, word),
        None => is_word(value, word),
    }
}

fn is_in_list(items: &[Value], word: &str) -> bool
    ensures { result ≡ any_item (is_word word.now) (items_view items.now) }
{
    items.iter().any(|item| is_word(item, word))
}
