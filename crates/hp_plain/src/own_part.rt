ghost use Rattle.std.specs.Prelude.{◌≡◌};
ghost use Rattle.hp_hall.specs.Own.{after_ack, after_partial};

use std::marker::Model;

// A participant's own part in a hall of plain values: its number, and up to which record it has unmapped.
#[derive(Drop)]
pub(crate) struct OwnPart {
    number: u64,
    unmapped: u64,
}

impl Model for OwnPart {
    ghost use Rattle.hp_hall.specs.Own.{Own};

    ghost Value = { Own };

    ghost view = { λ a. record { number = a.number; unmapped = a.unmapped } };
}

impl OwnPart {
    // The part of a participant that has acknowledged so many records.
    pub fn acked(number: u64) -> OwnPart
        ensures { result ≡ after_ack number }
    {
        OwnPart {
            number,
            unmapped: number,
        }
    }

    // It has unmapped what so many records drop.
    pub fn note_unmapped(&mut self, records: u64)
        ensures { self.new ≡ after_partial records self.old }
    {
        self.unmapped = records;
    }

    // How many records it has acknowledged.
    pub fn number(&self) -> u64
        ensures { result ≡ self.now.number }
    {
        self.number
    }
}
