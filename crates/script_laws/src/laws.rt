//! Laws of every script, about the definitions alone.

ghost use Rattle.script_laws.specs.ScriptLaws.{PlaysWhatCanBe};

/// Whatever lines a script has, and whatever configuration it begins with, its session's history can happen in an
/// entity of the session's configuration, with each event in the lane where it belongs. So what holds of every run of
/// an entity holds of every script.
pub fn histories()
    ensures { PlaysWhatCanBe }
{}
