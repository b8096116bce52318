//! A text written whole to a sink.
ghost use Rattle.std.specs.Prelude.{◌≡◌, OnOk, OnErr, is_err, length};
ghost use Rattle.hp_base.specs.Streams.{CountsFault};
ghost use Rattle.hp_command.specs.Writing.{Holds, HoldsFront};

use hp_base::{Put, Sink};

/// Writing failed before all bytes were taken. Own.
#[derive(Clone, Copy, PartialEq, Eq)]
pub struct WriteFault;

/// Writes all of the bytes. After a fault the sink has taken some of them, from the first on. Own.
pub fn write_whole<K: Sink>(sink: &mut K, bytes: &[u8]) -> Result<(), WriteFault>
    ensures ok { OnOk result (Holds (K.held sink.old) (K.held sink.new) bytes.now) }
    ensures err { OnErr result (HoldsFront (K.held sink.old) (K.held sink.new) bytes.now) }
    ensures cause { CountsFault (K.faults sink.old) (K.faults sink.new) (is_err result) }
{
    let mut at = 0;
    while at < bytes.len() {
        let (_taken, rest) = bytes.split_at(at);
        match sink.write(rest) {
            Put::Took(n) => at += n,
            Put::Failed => return Err(WriteFault),
        }
    }
    Ok(())
}
