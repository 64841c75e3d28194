use super::channel::class_named;
use super::config_line::{is_on, miss_kind};
use super::field::{FIELDS, Field};
use super::parse::{ACCESSES, Verb};
use super::policy::policy_named;
use super::table::value_named;

/// What a word of a script's line can be: one of some keywords, or a number.
#[derive(Clone, Copy, Debug, PartialEq, Eq)]
pub enum Slot {
    /// What the line is: a command, or a field of the configuration.
    Name,
    Channel,
    Access,
    Policy,
    Misses,
    Setting,
    Core,
    Line,
    Slice,
    Word,
    Tag,
    Number,
}

impl Slot {
    /// Returns the slots after a keyword, if the keyword fits this slot.
    pub fn behind(self, keyword: &[u8]) -> Option<&'static [Slot]> {
        match self {
            Slot::Name => behind_name(keyword),
            Slot::Channel => Some(class_named(keyword)?.slots()),
            Slot::Access => Some(value_named(&ACCESSES, keyword)?.slots()),
            Slot::Policy => Some(policy_named(keyword)?.slots()),
            Slot::Misses => {
                miss_kind(keyword)?;
                Some(&[])
            }
            Slot::Setting => {
                is_on(keyword)?;
                Some(&[])
            }
            Slot::Core | Slot::Line | Slot::Slice | Slot::Word | Slot::Tag | Slot::Number => None,
        }
    }
}

fn behind_name(name: &[u8]) -> Option<&'static [Slot]> {
    match Verb::named(name) {
        Some(verb) => Some(verb.slots()),
        None => {
            let field: Field = value_named(&FIELDS, name)?;
            Some(field.slots())
        }
    }
}
