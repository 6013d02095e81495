//! A text of TOML, read octet by octet in search of a key.
ghost use Rattle.std.specs.Prelude.{◌≡◌};
ghost use Rattle.fault_texts.specs.Scans.{after, ends_whole, header_ended, in_start, is_blank, is_mark, key_ended, newline, noted, one_more, table_begun, with_here, with_octet};

/// What is looked for: names with dots between them, the first of which is a table's.
#[derive(Clone, Copy, Debug)]
pub struct Sought<'a> {
    pub path: &'a [u8],
    /// How many octets the first name has.
    pub head: usize,
    /// Which of the tables of that name it is, counted from 1; 0 if there is only one.
    pub table: u64,
}

/// How far a path of the text agrees with the one looked for.
#[derive(Clone, Copy, Debug, PartialEq, Eq)]
pub struct Agreed {
    pub octets: usize,
    /// Whether the text's path goes on after the end of the other.
    pub is_past: bool,
    pub is_wrong: bool,
}

/// Where in a line the reader is.
#[derive(Clone, Copy, Debug, PartialEq, Eq)]
pub enum Part {
    /// Before the line's first mark.
    Start,
    /// In the header of a table, or of one of several.
    Header,
    Headers,
    Key,
    Rest,
}

/// What the reader knows after some octets.
#[derive(Clone, Copy, Debug, PartialEq, Eq)]
pub struct Scan {
    /// How many lines have ended.
    pub lines: u64,
    /// How many tables of the first name have begun.
    pub tables: u64,
    pub part: Part,
    /// The path of the last header, and the one being read.
    pub header: Agreed,
    pub here: Agreed,
    /// The line whose path agrees the most, counted from 1, and how far it does; 0 if there is none.
    pub line: u64,
    pub most: usize,
}

// A path without octets.
pub(crate) const NO_PATH: Agreed = Agreed {
    octets: 0,
    is_past: false,
    is_wrong: false,
};

const WRONG: Agreed = Agreed {
    octets: 0,
    is_past: false,
    is_wrong: true,
};

/// The reader before the first octet.
pub(crate) const START: Scan = Scan {
    lines: 0,
    tables: 0,
    part: Part::Start,
    header: NO_PATH,
    here: NO_PATH,
    line: 0,
    most: 0,
};

// Whether an octet is a blank.
fn is_blank(octet: u8) -> bool
    ensures { result ≡ is_blank octet }
{
    octet == b' ' || octet == b'\t' || octet == b'\r'
}

// Whether a path goes on over this octet as if it weren't there.
fn is_mark(octet: u8) -> bool
    ensures { result ≡ is_mark octet }
{
    is_blank(octet) || octet == b'"' || octet == b'\''
}

// The path with one more octet.
fn with_octet(path: &[u8], before: Agreed, octet: u8) -> Agreed
    ensures { result ≡ with_octet path.now before octet }
{
    if before.is_wrong || before.is_past || is_mark(octet) {
        return before;
    }
    match path.get(before.octets) {
        Some(wanted) if *wanted == octet => Agreed {
            octets: before.octets + 1,
            ..before
        },
        None if octet == b'.' => Agreed {
            is_past: true,
            ..before
        },
        _ => WRONG,
    }
}

// Whether the path ends where one of the names that are looked for ends.
fn ends_whole(path: &[u8], agreed: Agreed) -> bool
    ensures { result ≡ ends_whole path.now agreed }
{
    if agreed.is_wrong {
        return false;
    }
    match path.get(agreed.octets) {
        Some(next) => *next == b'.',
        None => true,
    }
}

// The number after another; the greatest one stays.
fn one_more(number: u64) -> u64
    ensures { result ≡ one_more number }
{
    if number < u64::MAX {
        number + 1
    } else {
        number
    }
}

impl Scan {
    /// The reader after one more octet.
    pub(crate) fn after(self, octet: u8, sought: &Sought<'_>) -> Scan
        ensures { result ≡ after sought.now self octet }
    {
        if octet == b'\n' {
            return self.newline();
        }
        match self.part {
            Part::Start => self.in_start(octet, sought.path),
            Part::Header if octet == b'[' => Scan {
                part: Part::Headers,
                ..self
            },
            Part::Headers if octet == b']' => self.table_begun(sought).header_ended(sought),
            Part::Header if octet == b']' => self.header_ended(sought),
            Part::Key if octet == b'=' => self.key_ended(sought.path),
            Part::Rest => self,
            _ => self.with_here(octet, sought.path),
        }
    }

    // At the next line.
    fn newline(self) -> Scan
        ensures { result ≡ newline self }
    {
        Scan {
            lines: one_more(self.lines),
            part: Part::Start,
            ..self
        }
    }

    // With one more octet of the path that is being read.
    fn with_here(self, octet: u8, path: &[u8]) -> Scan
        ensures { result ≡ with_here path.now self octet }
    {
        Scan {
            here: with_octet(path, self.here, octet),
            ..self
        }
    }

    // With an octet before the line's first mark, or that mark. A key goes on where the header's path ended.
    fn in_start(self, octet: u8, path: &[u8]) -> Scan
        ensures { result ≡ in_start path.now self octet }
    {
        if is_blank(octet) {
            return self;
        }
        if octet == b'#' {
            return Scan {
                part: Part::Rest,
                ..self
            };
        }
        if octet == b'[' {
            return Scan {
                part: Part::Header,
                here: NO_PATH,
                ..self
            };
        }
        let begun = if self.header == NO_PATH {
            NO_PATH
        } else {
            with_octet(path, self.header, b'.')
        };
        Scan {
            part: Part::Key,
            here: with_octet(path, begun, octet),
            ..self
        }
    }

    // With one more table of the first name, if the header that ends is that.
    fn table_begun(self, sought: &Sought<'_>) -> Scan
        ensures { result ≡ table_begun sought.now self }
    {
        let is_one = self.here.octets == sought.head && !self.here.is_past;
        if !is_one || !ends_whole(sought.path, self.here) {
            return self;
        }
        Scan {
            tables: one_more(self.tables),
            ..self
        }
    }

    // At the end of a header.
    fn header_ended(self, sought: &Sought<'_>) -> Scan
        ensures { result ≡ header_ended sought.now self }
    {
        let is_there = sought.table == 0 || sought.table == self.tables;
        if !is_there || !ends_whole(sought.path, self.here) {
            return Scan {
                part: Part::Rest,
                header: WRONG,
                ..self
            };
        }
        let ended = Scan {
            part: Part::Rest,
            header: self.here,
            ..self
        };
        ended.noted()
    }

    // At the end of a key.
    fn key_ended(self, path: &[u8]) -> Scan
        ensures { result ≡ key_ended path.now self }
    {
        let ended = Scan {
            part: Part::Rest,
            ..self
        };
        if ends_whole(path, self.here) {
            ended.noted()
        } else {
            ended
        }
    }

    // With this line, if its path agrees further than those before.
    fn noted(self) -> Scan
        ensures { result ≡ noted self }
    {
        if self.here.octets <= self.most {
            return self;
        }
        Scan {
            line: one_more(self.lines),
            most: self.here.octets,
            ..self
        }
    }
}
