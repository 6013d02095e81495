//! Reading a station's file.
ghost use Rattle.std.specs.Prelude.{◌≡◌, ◌⊎◌, IfErr, IfOk, None, OnOk, Some, option_map, string_bytes};
ghost use Rattle.station_config.specs.Settings.{ControlSays, LogSays, RecordSays, SendingSays, SettingsSays, StationSays, StoreSays, beside_at, lanes_of, mode_of, perhaps_at, remote_of, remotes_in, remotes_of, source_rule, value_in};
ghost use Rattle.station_config.specs.Station.{first_fault};
ghost use Rattle.toml.specs.View.{items_view, table_view, view};

use crate::fault::StationFault;
use crate::keys::{
    ABANDON_FULL, BIND, EXISTING, FOLDER, HOLD, KEYS, LAYOUT, LOG_COMMANDS, LOG_FILE, LOG_LEVEL,
    MODE, NUMBERS, OUTBOX, OUTBOX_REPAIR, PARK, PEER_HELD, PEER_LANES, PEER_RATE, RATE,
    RECORD_FOLDER, RECORD_MOST, RECORD_WHICH, REMOTE_KEYS, RETRY, SOCKET, SOURCES, STATUS_SOCKET,
    WORKERS,
};
use crate::paths::path_from;
use crate::settings::{
    ControlSettings, Lanes, LogSettings, RecordSettings, RemoteSettings, SendingSettings, Settings,
    SourceRule, StationSettings, StoreSettings,
};
use crate::walk::{first_fault, has_word, member_of, number_of, truth_of, value_of, word_of};
use entity_config::{Config, ConfigFault, config_in};
use event_levels::Level;
use std::alloc::{AllocError, Global};
use toml::{Table, Value};

/// Reads a station's file, whose path is `file`: what the station was told, and its entity's configuration.
pub fn read_station(
    alloc: Global,
    text: &str,
    file: &str,
) -> Result<(Settings, Config), StationFault> {
    let mut top = table_in(alloc, text)?;
    let settings = told_in(alloc, &top, file)?;
    take_out(&mut top);
    match config_in(alloc, &top) {
        Ok(config) => Ok((settings, config)),
        Err(fault) => Err(entity_fault(fault)),
    }
}

/// What the table of a file, whose path is `file`, tells the station; or the first fault of the station's own keys, or
/// `NoMemory`.
pub fn told_in(alloc: Global, top: &Table, file: &str) -> Result<Settings, StationFault>
    ensures told { IfOk result (SettingsSays file.now (table_view top.now)) }
    ensures right { OnOk result (first_fault (table_view top.now) ≡ None) }
    ensures refused { IfErr result (λ fault. (fault ≡ StationFault.NoMemory) ⊎ (first_fault (table_view top.now) ≡ Some fault)) }
{
    if let Some(fault) = first_fault(top) {
        return Err(fault);
    }
    match settings_in(alloc, top, file) {
        Ok(settings) => Ok(settings),
        Err(AllocError) => Err(StationFault::NoMemory),
    }
}

/// Reads a file that may be a station's or an entity's configuration; the settings are those of a station.
pub fn read_file(
    alloc: Global,
    text: &str,
    file: &str,
) -> Result<(Option<Settings>, Config), StationFault> {
    let top = table_in(alloc, text)?;
    if KEYS.iter().any(|row| top.contains_key(row.0)) {
        let (settings, config) = read_station(alloc, text, file)?;
        return Ok((Some(settings), config));
    }
    match config_in(alloc, &top) {
        Ok(config) => Ok((None, config)),
        Err(fault) => Err(entity_fault(fault)),
    }
}

/// Reads the entity's configuration in a station's file, or in a file that has nothing else.
pub fn read_entity(alloc: Global, text: &str) -> Result<Config, ConfigFault> {
    match entity_table(alloc, text) {
        Ok(top) => config_in(alloc, &top),
        Err(StationFault::NoMemory) => Err(ConfigFault::NoMemory),
        Err(_) => Err(ConfigFault::BadToml),
    }
}

/// The top-level table of a file without the station's keys: what it says of the entity.
pub fn entity_table(alloc: Global, text: &str) -> Result<Table, StationFault> {
    let mut top = table_in(alloc, text)?;
    take_out(&mut top);
    Ok(top)
}

fn table_in(alloc: Global, text: &str) -> Result<Table, StationFault> {
    match toml::table_from_str(alloc, text) {
        Ok(top) => Ok(top),
        Err(error) if error.is_memory() => Err(StationFault::NoMemory),
        Err(_) => Err(StationFault::BadToml),
    }
}

fn entity_fault(fault: ConfigFault) -> StationFault {
    match fault {
        ConfigFault::NoMemory => StationFault::NoMemory,
        _ => StationFault::Entity(fault),
    }
}

// Takes the station's keys out of a file's table.
fn take_out(top: &mut Table) {
    for row in &KEYS {
        let _taken = top.remove(row.0);
    }
    if let Some(value) = top.get_mut("remote")
        && let Some(items) = value.as_array_mut()
    {
        for item in items.iter_mut() {
            if let Some(table) = item.as_table_mut() {
                take_out_of(table);
            }
        }
    }
}

fn take_out_of(table: &mut Table) {
    for row in &REMOTE_KEYS {
        let _taken = table.remove(row.1);
    }
}

// What the station was told, by a table without a fault of the station's own keys.
fn settings_in(alloc: Global, top: &Table, file: &str) -> Result<Settings, AllocError>
    ensures { IfOk result (SettingsSays file.now (table_view top.now)) }
{
    let folder = path_from(alloc, file, word_of(value_of(top, &FOLDER)))?;
    let station = station_in(alloc, top)?;
    let sending = sending_in(alloc, top, file, folder.as_str())?;
    let log = log_in(alloc, top, file, folder.as_str())?;
    let control = control_in(alloc, top, file)?;
    let record = record_in(alloc, top, file)?;
    let remotes = remotes_in(alloc, top)?;
    Ok(Settings {
        station,
        store: store_in(top, folder),
        sending,
        control: Some(control),
        log,
        record,
        remotes,
    })
}

fn station_in(alloc: Global, top: &Table) -> Result<StationSettings, AllocError>
    ensures { IfOk result (StationSays (table_view top.now)) }
{
    let bind = String::from_str(alloc, word_of(value_of(top, &BIND)))?;
    Ok(StationSettings {
        bind,
        workers: number_of(value_of(top, &WORKERS), WORKERS.2),
        park: number_of(value_of(top, &PARK), PARK.2),
        hold: truth_of(value_of(top, &HOLD), HOLD.2),
        sources: source_rule(word_of(value_of(top, &SOURCES))),
        abandon_full: truth_of(value_of(top, &ABANDON_FULL), ABANDON_FULL.2),
    })
}

fn store_in(top: &Table, folder: String) -> StoreSettings
    ensures { StoreSays (string_bytes folder) (table_view top.now) result }
{
    let layout = value_of(top, &LAYOUT);
    StoreSettings {
        folder,
        tree: has_word(layout, "tree"),
        by_source: has_word(layout, "by-source"),
        keeps: word_of(value_of(top, &EXISTING)) == "keep",
        retry_s: number_of(value_of(top, &RETRY), RETRY.2),
    }
}

fn sending_in(
    alloc: Global,
    top: &Table,
    file: &str,
    folder: &str,
) -> Result<SendingSettings, AllocError>
    ensures { IfOk result (SendingSays file.now folder.now (table_view top.now)) }
{
    Ok(SendingSettings {
        numbers: beside_at(alloc, value_of(top, &NUMBERS), file, folder, ".numbers")?,
        outbox: beside_at(alloc, value_of(top, &OUTBOX), file, folder, ".outbox")?,
        outbox_repair: truth_of(value_of(top, &OUTBOX_REPAIR), OUTBOX_REPAIR.2),
        rate: number_of(value_of(top, &RATE), RATE.2),
    })
}

fn log_in(alloc: Global, top: &Table, file: &str, folder: &str) -> Result<LogSettings, AllocError>
    ensures { IfOk result (LogSays file.now folder.now (table_view top.now)) }
{
    let level = match Level::named(word_of(value_of(top, &LOG_LEVEL)).as_bytes()) {
        Some(level) => level,
        None => Level::Info,
    };
    Ok(LogSettings {
        file: beside_at(alloc, value_of(top, &LOG_FILE), file, folder, ".log")?,
        level,
        commands: truth_of(value_of(top, &LOG_COMMANDS), LOG_COMMANDS.2),
    })
}

fn record_in(alloc: Global, top: &Table, file: &str) -> Result<RecordSettings, AllocError>
    ensures { IfOk result (RecordSays file.now (table_view top.now)) }
{
    Ok(RecordSettings {
        folder: perhaps_at(alloc, value_of(top, &RECORD_FOLDER), file)?,
        all: word_of(value_of(top, &RECORD_WHICH)) == "all",
        most: number_of(value_of(top, &RECORD_MOST), RECORD_MOST.2),
    })
}

fn control_in(alloc: Global, top: &Table, file: &str) -> Result<ControlSettings, AllocError>
    ensures { IfOk result (ControlSays file.now (table_view top.now)) }
{
    Ok(ControlSettings {
        socket: path_from(alloc, file, word_of(value_of(top, &SOCKET)))?,
        mode: mode_of(word_of(value_of(top, &MODE))),
        status_socket: perhaps_at(alloc, value_of(top, &STATUS_SOCKET), file)?,
    })
}

fn source_rule(word: &str) -> SourceRule
    ensures { result ≡ source_rule word.now }
{
    if word == "hosts" {
        SourceRule::Hosts
    } else if word == "known" {
        SourceRule::Known
    } else if word == "own" {
        SourceRule::Own
    } else {
        SourceRule::Any
    }
}

fn mode_of(word: &str) -> u32
    ensures { result ≡ mode_of word.now }
{
    if word == "0660" {
        0o660
    } else if word == "0666" {
        0o666
    } else {
        0o600
    }
}

// The path that a value is, if it is one.
fn perhaps_at(
    alloc: Global,
    value: Option<&Value>,
    file: &str,
) -> Result<Option<String>, AllocError>
    ensures { IfOk result (λ path. option_map string_bytes path ≡ perhaps_at file.now (option_map (λ value. view value.now) value.entry)) }
{
    let path = word_of(value);
    if path.is_empty() {
        return Ok(None);
    }
    Ok(Some(path_from(alloc, file, path)?))
}

// The path that a value is, by default one beside the store's folder with this ending; `None` if it is switched off.
fn beside_at(
    alloc: Global,
    value: Option<&Value>,
    file: &str,
    folder: &str,
    ending: &str,
) -> Result<Option<String>, AllocError>
    ensures { IfOk result (λ path. option_map string_bytes path ≡ beside_at file.now folder.now ending.now (option_map (λ value. view value.now) value.entry)) }
{
    if value.is_some() {
        return perhaps_at(alloc, value, file);
    }
    Ok(Some(format!(in alloc; "{folder}{ending}")?))
}

// What the station was told of remote entities, in the order of their tables.
fn remotes_in(alloc: Global, top: &Table) -> Result<Vec<RemoteSettings>, AllocError>
    ensures { IfOk result (λ remotes. remotes.items ≡ remotes_in (table_view top.now)) }
{
    match member_of(top, "remote") {
        Some(value) => match value.as_array() {
            Some(items) => each_remote(alloc, items),
            None => Ok(Vec::new(alloc)),
        },
        None => Ok(Vec::new(alloc)),
    }
}

fn each_remote(alloc: Global, items: &[Value]) -> Result<Vec<RemoteSettings>, AllocError>
    ensures { IfOk result (λ remotes. remotes.items ≡ remotes_of (items_view items.now)) }
{
    let mut remotes = Vec::new(alloc);
    for item in items {
        remotes.push(remote_of(item))?;
    }
    Ok(remotes)
}

fn remote_of(item: &Value) -> RemoteSettings
    ensures { result ≡ remote_of (view item.now) }
{
    RemoteSettings {
        rate: number_of(value_in(item, PEER_RATE.1), PEER_RATE.2),
        lanes: lanes_of(value_in(item, PEER_LANES.1)),
        held: truth_of(value_in(item, PEER_HELD.1), PEER_HELD.2),
    }
}

// The value of a key in a table `[[remote]]`.
fn value_in<'t>(item: &'t Value, name: &str) -> Option<&'t Value>
    ensures { option_map (λ value. view value.now) result ≡ value_in name.now (view item.now) }
{
    let table = item.as_table()?;
    member_of(table, name)
}

fn lanes_of(value: Option<&Value>) -> Lanes
    ensures { result ≡ lanes_of (option_map (λ value. view value.now) value.entry) }
{
    match value {
        None => Lanes::AsHere,
        Some(value) => match value.as_integer() {
            Some(number) => Lanes::Number(u64::try_from(number).unwrap_or(0)),
            None => Lanes::Free,
        },
    }
}
