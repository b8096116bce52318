ghost use Rattle.std.specs.Prelude.{◌≡◌};
ghost use Rattle.hp_frame.specs.Spelling.{kind_with_byte, byte_of, param_len_of};

/// What a message is for.
#[derive(Clone, Copy)]
pub(crate) enum Kind {
    Alloc,
    Free,
    Sync,
    Answer,
}

impl Kind {
    /// The kind that a frame's first byte stands for.
    pub(crate) fn with_byte(byte: u8) -> Option<Kind>
        ensures { result ≡ kind_with_byte byte }
    {
        match byte {
            1 => Some(Kind::Alloc),
            2 => Some(Kind::Free),
            3 => Some(Kind::Sync),
            4 => Some(Kind::Answer),
            _ => None,
        }
    }

    /// The first byte of its frames.
    pub(crate) fn byte(self) -> u8
        ensures { result ≡ byte_of self }
    {
        match self {
            Kind::Alloc => 1,
            Kind::Free => 2,
            Kind::Sync => 3,
            Kind::Answer => 4,
        }
    }

    /// How many bytes its parameter has.
    pub(crate) fn param_len(self) -> u8
        ensures { result ≡ param_len_of self }
    {
        match self {
            Kind::Alloc => 53,
            Kind::Free => 29,
            Kind::Sync => 9,
            Kind::Answer => 11,
        }
    }
}
