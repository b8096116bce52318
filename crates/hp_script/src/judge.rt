ghost use Rattle.std.specs.Prelude.{◌≡◌};
ghost use Rattle.hp_script.specs.Judge.{refuse, is_within, number_field, party_field};

use crate::bad_kind::BadKind;
use crate::numbers::{number, numeral};
use crate::token::Token;

/// Refuses so where the test holds.
pub fn refuse(test: bool, kind: BadKind) -> Result<(), BadKind>
    ensures { result ≡ refuse test kind }
{
    if test { Err(kind) } else { Ok(()) }
}

/// Whether a number is within its range.
pub fn is_within(low: u64, high: u64, n: u64) -> bool
    ensures { result ≡ is_within low high n }
{
    low <= n && n <= high
}

/// A field that is a number.
pub fn number_field(field: &Token) -> Result<u64, BadKind>
    ensures { result ≡ number_field field.now }
{
    number(field.as_bytes()).ok_or(BadKind::Number)
}

/// A field that names a participant.
pub fn party_field(field: &Token) -> Result<u64, BadKind>
    ensures { result ≡ party_field field.now }
{
    numeral(10, field.as_bytes()).ok_or(BadKind::Number)
}
