//! Families of numbers.
ghost use Rattle.std.specs.Prelude.{◌≡◌, ◌++◌, OnOk};
ghost use Rattle.web_lines.specs.Families.{head_of};
ghost use Rattle.web_lines.specs.Metrics.{head_text};

use crate::text::push_text;
use std::alloc::AllocError;

/// A family of numbers: its name and its help.
#[derive(Clone, Copy, Debug)]
pub(crate) enum Family {
    /// Numbers that only rise.
    Counter(&'static str, &'static str),
    /// Numbers that rise and fall.
    Gauge(&'static str, &'static str),
}

impl Family {
    /// Its name.
    pub(crate) fn name(self) -> &'static str
        ensures { result.now ≡ (head_of self).name }
    {
        match self {
            Family::Counter(name, _) | Family::Gauge(name, _) => name,
        }
    }

    // Its help text.
    fn help(self) -> &'static str
        ensures { result.now ≡ (head_of self).help }
    {
        match self {
            Family::Counter(_, help) | Family::Gauge(_, help) => help,
        }
    }

    // The name of its type.
    fn form(self) -> &'static str
        ensures { result.now ≡ (head_of self).form }
    {
        match self {
            Family::Counter(_, _) => "counter",
            Family::Gauge(_, _) => "gauge",
        }
    }
}

/// Adds the two lines above a family's numbers.
#[tactic(auto, unfolding(crate::specs::Metrics::head_text))]
pub(crate) fn push_head(text: &mut Vec<u8>, family: Family) -> Result<(), AllocError>
    ensures { OnOk result (text.new.items ≡ text.old.items ++ head_text (head_of family)) }
{
    let name = family.name();
    push_text(text, "# HELP ")?;
    push_text(text, name)?;
    push_text(text, " ")?;
    push_text(text, family.help())?;
    push_text(text, "\n# TYPE ")?;
    push_text(text, name)?;
    push_text(text, " ")?;
    push_text(text, family.form())?;
    push_text(text, "\n")
}
