//! The path attributes that the exchange knows, and attributes as they stand in a message (RFC 4271 4.3, 5; RFC 1997; RFC 6793).

ghost use Rattle.std.specs.Prelude.{◌≡◌};
ghost use Rattle.net_types.specs.UpdateFormat.{number_of};
ghost use Rattle.net_types.specs.AttributeTypes.{type_of, type_number, type_flags, type_length, has_length};

use crate::address::Ip;
use crate::list::{Numbers, Segments};
use crate::route::{Aggregator, Unknown};

/// A type of attribute that the exchange knows.
#[derive(Clone, Copy, Debug, PartialEq, Eq)]
pub enum AttributeType {
    Origin,
    AsPath,
    NextHop,
    MultiExitDisc,
    LocalPref,
    AtomicAggregate,
    Aggregator,
    Communities,
    As4Path,
}

/// How many octets a value has.
#[derive(Clone, Copy, Debug, PartialEq, Eq)]
pub enum ValueLength {
    Any,
    Exactly(usize),
    MultipleOfFour,
}

/// What is known of a type: its number, its name, the flags with which it is written (0x80 optional, 0x40 transitive),
/// and the length of its value.
#[derive(Clone, Copy, Debug, PartialEq, Eq)]
pub struct AttributeRow {
    pub number: u8,
    pub name: &'static str,
    pub flags: u8,
    pub length: ValueLength,
}

/// A row of the table of attributes.
fn row(number: u8, name: &'static str, flags: u8, length: ValueLength) -> AttributeRow
    ensures number { result.number ≡ number }
    ensures flags { result.flags ≡ flags }
    ensures length { result.length ≡ length }
{
    AttributeRow {
        number,
        name,
        flags,
        length,
    }
}

impl AttributeType {
    /// The type of this number.
    pub fn of(number: u8) -> Option<AttributeType>
        ensures { result ≡ type_of number }
    {
        match number {
            1 => Some(AttributeType::Origin),
            2 => Some(AttributeType::AsPath),
            3 => Some(AttributeType::NextHop),
            4 => Some(AttributeType::MultiExitDisc),
            5 => Some(AttributeType::LocalPref),
            6 => Some(AttributeType::AtomicAggregate),
            7 => Some(AttributeType::Aggregator),
            8 => Some(AttributeType::Communities),
            17 => Some(AttributeType::As4Path),
            _ => None,
        }
    }

    /// The table of attributes.
    pub fn row(self) -> AttributeRow
        ensures number { result.number ≡ type_number self }
        ensures flags { result.flags ≡ type_flags self }
        ensures length { result.length ≡ type_length self }
    {
        match self {
            AttributeType::Origin => row(1, "ORIGIN", 0x40, ValueLength::Exactly(1)),
            AttributeType::AsPath => row(2, "AS_PATH", 0x40, ValueLength::Any),
            AttributeType::NextHop => row(3, "NEXT_HOP", 0x40, ValueLength::Exactly(4)),
            AttributeType::MultiExitDisc => row(
                4,
                "MULTI_EXIT_DISC",
                0x80,
                ValueLength::Exactly(4),
            ),
            AttributeType::LocalPref => row(5, "LOCAL_PREF", 0x40, ValueLength::Exactly(4)),
            AttributeType::AtomicAggregate => row(
                6,
                "ATOMIC_AGGREGATE",
                0x40,
                ValueLength::Exactly(0),
            ),
            AttributeType::Aggregator => row(7, "AGGREGATOR", 0xC0, ValueLength::Exactly(6)),
            AttributeType::Communities => row(8, "COMMUNITIES", 0xC0, ValueLength::MultipleOfFour),
            AttributeType::As4Path => row(17, "AS4_PATH", 0xC0, ValueLength::Any),
        }
    }
}

impl ValueLength {
    /// Whether a value may have so many octets.
    pub fn allows(self, len: usize) -> bool
        ensures { result ≡ has_length self len }
    {
        match self {
            ValueLength::Any => true,
            ValueLength::Exactly(wanted) => len == wanted,
            ValueLength::MultipleOfFour => len % 4 == 0,
        }
    }
}

/// An attribute as it stands in a message.
#[derive(Drop)]
pub enum Attribute {
    Origin(u8),
    AsPath(Segments),
    NextHop(Ip),
    MultiExitDisc(u32),
    /// Its value is ignored.
    LocalPref,
    AtomicAggregate,
    Aggregator(Aggregator),
    /// Whether it passed somebody who doesn't know it, and its value.
    Communities(bool, Numbers),
    /// The path in AS numbers of four octets; it has a segment at least.
    As4Path(Segments),
    /// Optional and transitive, of a type that the exchange doesn't know.
    Unknown(Unknown),
    /// What says nothing, its type alone: optional and not transitive, of a type that the exchange doesn't know, or an
    /// AS4_PATH of another form.
    Ignored(u8),
}

impl Attribute {
    /// The number of its type.
    pub fn number(&self) -> u8
        ensures { result ≡ number_of self.now }
    {
        match self {
            Attribute::Origin(_) => 1,
            Attribute::AsPath(_) => 2,
            Attribute::NextHop(_) => 3,
            Attribute::MultiExitDisc(_) => 4,
            Attribute::LocalPref => 5,
            Attribute::AtomicAggregate => 6,
            Attribute::Aggregator(_) => 7,
            Attribute::Communities(_, _) => 8,
            Attribute::As4Path(_) => 17,
            Attribute::Unknown(unknown) => unknown.kind,
            Attribute::Ignored(number) => *number,
        }
    }
}
