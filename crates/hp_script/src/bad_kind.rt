ghost use Rattle.hp_script.specs.Kinds.{kind_word};

use std::fmt;

/// Why a line of a workload is refused, in the order in which a line is judged. Own.
#[derive(Clone, Copy, Debug, PartialEq, Eq)]
pub enum BadKind {
    /// A byte that is neither printable ASCII nor a tab.
    Byte,
    /// A field of more than 255 bytes.
    Long,
    /// An unknown setup line, verb or message kind.
    Verb,
    /// Too few fields, or too many.
    Fields,
    /// A field that is to be a number and is none of at most 64 bits.
    Number,
    /// A number out of its range, or a participant that the verb does not take.
    Range,
    /// An unknown or repeated option, a bad value of one, or options that exclude each other.
    Option,
    /// A setup line after a participant line.
    Order,
    /// A second line for what is said once, or a label that is in use.
    Duplicate,
    /// A participant that is not declared, or a label or name that no line makes.
    Unknown,
    /// An `await` of a line that does not stand before it.
    Ahead,
    /// More lists, segments or participant lines than a run has room for.
    Limit,
}

/// The kind's word, as the program writes it.
impl fmt::Display for BadKind {
    ghost use Rattle.std.specs.Prelude.{Some};
    ghost use Rattle.hp_script.specs.Kinds.{kind_word};

    ghost output = { λ kind. Some (kind_word kind) };

    fn fmt<W: fmt::Write>(&self, f: &mut fmt::Formatter<W>) -> fmt::Result {
        f.write_str(self.word())
    }
}

impl BadKind {
    ghost use Rattle.std.specs.Prelude.{◌≡◌};

    fn word(self) -> &'static str
        ensures { result.now ≡ kind_word self }
    {
        match self {
            BadKind::Byte => "Byte",
            BadKind::Long => "Long",
            BadKind::Verb => "Verb",
            BadKind::Fields => "Fields",
            BadKind::Number => "Number",
            BadKind::Range => "Range",
            BadKind::Option => "Option",
            BadKind::Order => "Order",
            BadKind::Duplicate => "Duplicate",
            BadKind::Unknown => "Unknown",
            BadKind::Ahead => "Ahead",
            BadKind::Limit => "Limit",
        }
    }
}
