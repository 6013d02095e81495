//! Levels, and their words.
ghost use Rattle.std.specs.Prelude.{◌≡◌};
ghost use Rattle.event_levels.specs.Levels.{level_named, name_of, reaches};

/// How much an event matters: each level more than those before it.
#[derive(Clone, Copy, Debug, PartialEq, Eq)]
pub enum Level {
    /// One piece of a file.
    Detail,
    /// What goes as it should.
    Info,
    /// What somebody should look at.
    Warning,
}

impl Level {
    /// Whether a level matters as much as another, or more.
    pub fn reaches(self, least: Level) -> bool
        ensures { result ≡ reaches self least }
    {
        match least {
            Level::Detail => true,
            Level::Info => !matches!(self, Level::Detail),
            Level::Warning => matches!(self, Level::Warning),
        }
    }

    /// Its word.
    pub fn name(self) -> &'static str
        ensures { result.now ≡ name_of self }
    {
        match self {
            Level::Detail => "detail",
            Level::Info => "info",
            Level::Warning => "warning",
        }
    }

    /// The level with this word.
    pub fn named(word: &[u8]) -> Option<Level>
        ensures { result ≡ level_named word.now }
    {
        if word == b"detail".as_slice() {
            Some(Level::Detail)
        } else if word == b"info".as_slice() {
            Some(Level::Info)
        } else if word == b"warning".as_slice() {
            Some(Level::Warning)
        } else {
            None
        }
    }
}
