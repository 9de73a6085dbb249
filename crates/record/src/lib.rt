//! The device record: a plan, with the languages and strings of the device.
//!
//! A person fills a record with its methods. What has no place spoils the record, so that refusal 3 tells of it: nothing is
//! dropped in silence. What lies beyond a count is not looked at.
#![tactic(auto)]

ghost use Rattle.std.specs.Prelude.{◌≡◌};
ghost use Rattle.record.specs.Filling.{bare, started, with_text, with_language, with_string};

use plan::{Plan, SPOILT};

/// The most languages of a record.
pub const LANGUAGES: usize = 4;

/// The strings of a language: manufacturer, product, serial number.
pub const NAMES: usize = 3;

/// The most UTF-16 units of a string.
pub const UNITS: usize = 31;

/// The strings of all languages.
pub const STRINGS: usize = LANGUAGES * NAMES;

/// The units of all strings.
pub const TEXT: usize = STRINGS * UNITS;

// A length stands beside the units, since any length is a record: `limits::check` names one that is too long (refusal 3).

/// A string, or none.
// A length beside the units and no `Option`: what lies behind it is part of the record, whose bytes are written back equal.
#[derive(Clone, Copy, Debug, PartialEq, Eq)]
pub struct Text {
    /// 0 for no string, else its units and one.
    pub len: u8,
    /// UTF-16 units; those of the string stand in front.
    pub units: [u16; UNITS],
}

/// A language and its strings, each at the place of its name.
#[derive(Clone, Copy, Debug, PartialEq, Eq)]
pub struct Language {
    /// The language's identifier, as 0409h for English (USB 2.0 section 9.6.7).
    pub id: u16,
    pub names: [Text; NAMES],
}

/// The device record. Of the languages, the first `plan.languages` count.
#[derive(Clone, Copy, Debug, PartialEq, Eq)]
pub struct Record {
    pub plan: Plan,
    pub languages: [Language; LANGUAGES],
}

/// The three strings of a language. As a number, a name is its place among them: its number in a descriptor less one.
#[derive(Clone, Copy, Debug, PartialEq, Eq)]
pub enum Name {
    Manufacturer = 0,
    Product = 1,
    Serial = 2,
}

impl Text {
    // The units become the string's; too many spoil its length.
    fn fill(&mut self, units: &[u16])
        ensures { self.new ≡ with_text units.now self.old }
    {
        let n = units.len();
        if n <= UNITS {
            self.len = n as u8 + 1;
            self.units[..n].copy_from_slice(units);
        } else {
            self.len = SPOILT;
        }
    }
}

impl Language {
    // The language is another, with no string.
    fn start(&mut self, id: u16)
        ensures { self.new ≡ started id self.old }
    {
        self.id = id;
        for text in self.names.iter_mut() {
            text.len = 0;
        }
    }
}

impl Record {
    /// A record with no language.
    pub fn new(plan: Plan) -> Record
        ensures { result ≡ bare plan }
    {
        let none = Text {
            len: 0,
            units: [0; UNITS],
        };
        let language = Language {
            id: 0,
            names: [none; NAMES],
        };
        Record {
            plan: Plan {
                languages: 0,
                ..plan
            },
            languages: [language; LANGUAGES],
        }
    }

    /// The record with the next language, with no string.
    // Neither this nor the next is inlined: a compiler that looks inside cuts a record into its strings at each copy.
    #[inline(never)]
    pub fn with_language(mut self, id: u16) -> Record
        ensures { result ≡ with_language id self }
    {
        let n = self.plan.languages as usize;
        if n < LANGUAGES {
            self.plan.languages += 1;
            self.languages[n].start(id);
        } else {
            self.plan.languages = SPOILT;
        }
        self
    }

    /// The record with a string of the language that was added last. One of more than [`UNITS`] units spoils its length, one of
    /// no language the count of languages.
    #[inline(never)]
    pub fn with_string(mut self, name: Name, units: &[u16]) -> Record
        ensures { result ≡ with_string name units.now self }
    {
        let n = self.plan.languages as usize;
        if 0 < n && n <= LANGUAGES {
            self.languages[n - 1].names[name as usize].fill(units);
        } else {
            self.plan.languages = SPOILT;
        }
        self
    }
}
