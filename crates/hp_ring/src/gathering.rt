//! What a taker gathers of one sender.
ghost use Rattle.std.specs.Prelude.{◌≡◌, ◌++◌, [], ◌∷◌, ℕ, List, IfOk, OnOk};
ghost use Rattle.hp_ring.specs.Bulks.{BulkView, bulk};
ghost use Rattle.hp_ring.specs.Gathering.{HasGathered, bytes_of};

use std::alloc::{AllocError, Global};

// The bytes of a sender so far, whether its end has come, and whether there was memory for all of them.
#[derive(Drop)]
pub struct Gathered {
    pub bytes: Vec<u8>,
    pub ended: bool,
    pub whole: bool,
}

// Nothing, with room for so many bytes.
pub(crate) fn nothing(alloc: Global, room: usize) -> Result<Gathered, AllocError>
    ensures { IfOk result (HasGathered []) }
{
    let bytes = Vec::with_capacity(alloc, room)?;
    Ok(Gathered {
        bytes,
        ended: false,
        whole: true,
    })
}

// The words of one bulk more, or an end where there are none.
pub(crate) fn add(gathered: &mut Gathered, words: &[u64])
    ensures { (bulks : List BulkView) (who : ℕ) → HasGathered bulks gathered.old
        → HasGathered (bulks ++ bulk who words.now ∷ []) gathered.new }
{
    if words.is_empty() {
        gathered.ended = true;
        return;
    }
    match add_bytes(&mut gathered.bytes, words) {
        Ok(()) => {}
        Err(_) => gathered.whole = false,
    }
}

// Each word is a byte more.
fn add_bytes(bytes: &mut Vec<u8>, words: &[u64]) -> Result<(), AllocError>
    ensures { OnOk result (bytes.new.items ≡ bytes.old.items ++ bytes_of words.now) }
{
    for word in words {
        bytes.push((*word % 256) as u8)?;
    }
    Ok(())
}
