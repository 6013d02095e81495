//! The tables of the users.
ghost use Rattle.std.specs.Prelude.{◌≡◌, [], map, position, string_bytes};
ghost use Rattle.std.specs.List.{list_any};
ghost use Rattle.config_reading.specs.Reads.{Reads, seen};
ghost use Rattle.config_reading.specs.Texts.{is_same_text};
ghost use Rattle.config_reading.specs.Walk.{user_in, users_in};
ghost use Rattle.toml.specs.View.{table_view};

use crate::fault::{ConfigFault, Key, Section};
use crate::reading::tables::{has_only, required};
use crate::reading::texts::name_of;
use std::alloc::Global;
use toml::Table;

/// The names of the users, in the order of their tables.
pub(crate) fn users_in(alloc: Global, tables: &[&Table]) -> Result<Vec<String>, ConfigFault>
    ensures { Reads (λ users. map string_bytes users.items)
        result (users_in [] (map (λ table. table_view table.now) tables.now)) }
{
    let mut users = Vec::new(alloc);
    for table in tables {
        let name = user_in(table, &users)?;
        users.push(String::from_str(alloc, name)?)?;
    }
    Ok(users)
}

/// The name in one table; it may not repeat one of those before it.
pub fn user_in<'t>(table: &'t Table, before: &[String]) -> Result<&'t str, ConfigFault>
    ensures { seen (λ name. name.now) result ≡ user_in (map string_bytes before.now) (table_view table.now) }
{
    if !has_only(table, &[Key::Name]) {
        return Err(ConfigFault::UnknownKey(Section::User));
    }
    let name = name_of(required(table, Key::Name)?, Key::Name)?;
    if is_one_of(name, before) {
        return Err(ConfigFault::DuplicateUser);
    }
    Ok(name)
}

fn is_one_of(name: &str, names: &[String]) -> bool
    ensures { result ≡ list_any (is_same_text name.now) (map string_bytes names.now) }
{
    names.iter().any(|other| name == other.as_str())
}

/// The place of a name in a list.
pub fn place_of(names: &[String], name: &str) -> Option<usize>
    ensures { result ≡ position (λ other. is_same_text name.now (string_bytes other)) names.now }
{
    names.iter().position(|other| name == other.as_str())
}
