use std::alloc::{AllocError, Global};
use std::marker::Model;

/// Words of the picture, as they are before they are escaped. Contracts see their bytes.
#[derive(Drop)]
pub struct Words {
    bytes: Vec<u8>,
}

impl Model for Words {
    ghost use Rattle.std.specs.Prelude.{ℕ, List};

    ghost Value = { List ℕ };

    ghost view = { λ words. words.bytes.items };
}

impl Words {
    ghost use Rattle.std.specs.Prelude.{◌≡◌, ◌++◌, IfOk};

    /// These words.
    pub fn of(alloc: Global, text: &[u8]) -> Result<Words, AllocError>
        ensures { IfOk result (λ words. words ≡ text.now) }
    {
        let bytes = Vec::from_slice(alloc, text)?;
        Ok(Words { bytes })
    }

    /// Three texts, one after another.
    pub fn joined(
        alloc: Global,
        front: &[u8],
        middle: &[u8],
        rest: &[u8],
    ) -> Result<Words, AllocError>
        ensures { IfOk result (λ words. words ≡ front.now ++ (middle.now ++ rest.now)) }
    {
        let mut bytes = Vec::from_slice(alloc, front)?;
        bytes.extend_from_slice(middle)?;
        bytes.extend_from_slice(rest)?;
        Ok(Words { bytes })
    }

    /// Their bytes.
    pub fn as_bytes(&self) -> &[u8]
        ensures { result.now ≡ self.now }
    {
        self.bytes.as_slice()
    }
}
