//! Of what an entity is made anew, as long as it has received no event.
ghost use Rattle.std.specs.Prelude.{◌≡◌, Ok, Err, IfErr, OnOk};
ghost use Rattle.cfdp_session.specs.Plans.{with_settings};
ghost use Rattle.cfdp_session.specs.declared.plan.Unset.TheVariants.{NoMemory};

use entity_config::{Config, ConfigFault, Setting, read_config};
use std::alloc::{AllocError, AllocFailed, Global};
use std::marker::Model;
use world_core::World;

/// Why a setting was not made.
#[derive(Clone, Copy)]
pub enum Unset {
    /// The entity has received an event.
    TooLate,
    /// The setting may not have this value.
    NotAllowed,
    NoMemory,
}

impl From<AllocError> for Unset {
    ghost from_gives = { λ _ why. why ≡ NoMemory };

    fn from(_: AllocError) -> Unset {
        Unset::NoMemory
    }
}

impl<T: Drop> From<AllocFailed<T>> for Unset {
    ghost from_gives = { λ _ why. why ≡ NoMemory };

    fn from(_: AllocFailed<T>) -> Unset {
        Unset::NoMemory
    }
}

/// A configuration's text, and the settings that were made since. Contracts see both.
#[derive(Drop)]
pub struct Plan {
    text: String,
    settings: Vec<Setting>,
}

impl Model for Plan {
    ghost use Rattle.std.specs.Prelude.{string_bytes};
    ghost use Rattle.cfdp_session.specs.Plans.{PlanValue};

    ghost Value = { PlanValue };

    ghost view = { λ p. record { text = string_bytes p.text; settings = p.settings.items } };
}

impl Plan {
    ghost use Rattle.std.specs.Prelude.{◌≡◌, ◌⊎◌, [], Ok, Err, IfOk, IfErr, OnOk, OnErr};
    ghost use Rattle.world_core.specs.Worlds.{StandsAfter};
    ghost use Rattle.cfdp_session.specs.Plans.{IsUnsettable, and_setting, planned};

    /// A text without settings.
    pub fn new(alloc: Global, text: &str) -> Result<Plan, AllocError>
        ensures { IfOk result (λ plan. plan ≡ record { text = text.now; settings = [] }) }
    {
        Ok(Plan {
            text: String::from_str(alloc, text)?,
            settings: Vec::new(alloc),
        })
    }

    // The configuration, with one more setting.
    #[tactic(auto, using(crate::proofs::Planning::one_more))]
    fn config_with(&self, alloc: Global, setting: &Setting) -> Result<Config, ConfigFault>
        ensures made { IfOk result (λ config. planned (and_setting self.now setting.now) ≡ Ok config) }
        ensures refused { IfErr result (λ fault. (fault ≡ ConfigFault.NoMemory) ⊎ (planned (and_setting self.now setting.now) ≡ Err fault)) }
    {
        let mut config = read_config(alloc, self.text.as_str())?;
        make_all(&mut config, self.settings.as_slice())?;
        config.set(*setting)?;
        Ok(config)
    }

    // A new entity by this plan and one more setting.
    fn world_with(&self, alloc: Global, setting: &Setting) -> Result<World, Unset>
        ensures config { IfOk result (λ world. planned (and_setting self.now setting.now) ≡ Ok world.config) }
        ensures stands { IfOk result (λ world. StandsAfter world []) }
        ensures refused { IfErr result (IsUnsettable self.now setting.now) }
    {
        match self.config_with(alloc, setting) {
            Ok(config) => Ok(World::open(alloc, config)?),
            Err(ConfigFault::NoMemory) => Err(Unset::NoMemory),
            Err(_) => Err(Unset::NotAllowed),
        }
    }

    /// Adds a setting, and makes an entity by all of them. An error changes nothing.
    pub fn make_with(&mut self, alloc: Global, setting: &Setting) -> Result<World, Unset>
        ensures config { IfOk result (λ world. planned (and_setting self.old setting.now) ≡ Ok world.config) }
        ensures stands { IfOk result (λ world. StandsAfter world []) }
        ensures refused { IfErr result (IsUnsettable self.old setting.now) }
        ensures ok { OnOk result (self.new ≡ and_setting self.old setting.now) }
        ensures err { OnErr result (self.new ≡ self.old) }
    {
        let world = self.world_with(alloc, setting)?;
        self.settings.push(*setting)?;
        Ok(world)
    }
}

// Makes settings one after the other.
fn make_all(config: &mut Config, settings: &[Setting]) -> Result<(), ConfigFault>
    ensures made { OnOk result (with_settings settings.now (Ok config.old) ≡ Ok config.new) }
    ensures refused { IfErr result (λ fault. with_settings settings.now (Ok config.old) ≡ Err fault) }
{
    for setting in settings {
        config.set(*setting)?;
    }
    Ok(())
}
