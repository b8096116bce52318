ghost use Rattle.std.specs.Prelude.{◌≡◌, IfOk, IsOkAnd};
ghost use Rattle.std.specs.Result.{result_err};
ghost use Rattle.hp_frame.specs.declared.message.Message.{Message};
ghost use Rattle.hp_frame.specs.Spelling.{Spells};
ghost use Rattle.hp_frame.specs.FirstFault.{first_fault};

use crate::checking::check;
use crate::fault::Fault;
use crate::view::FrameView;

/// Reads a frame, which is all of the bytes. It allocates nothing and copies no part: the view lends the
/// name and the parameter from the bytes. Own.
pub fn read(bytes: &[u8]) -> Result<FrameView<'_>, Fault>
    // The bytes spell the message that is read, and its parts lie where the bytes lie.
    ensures spelled { IfOk result (λ view. Spells bytes.now view.message) }
    ensures lent { IfOk result (λ view. view.address ≡ bytes.entry.ref_ptr) }

    // A message that the bytes spell is read.
    ensures only { (m : Message) → Spells bytes.now m → IsOkAnd result (λ view. view.message ≡ m) }

    // An error is the first fault.
    ensures fault { result_err result ≡ first_fault bytes.now }
{
    let kind = check(bytes)?;
    Ok(FrameView::over(kind, bytes))
}
