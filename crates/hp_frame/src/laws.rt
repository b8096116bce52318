//! Laws of the format, each the contract of a call that does nothing.

ghost use Rattle.std.specs.Prelude.{◌≡◌, ℕ, List, None};
ghost use Rattle.hp_frame.specs.declared.message.Message.{Message};
ghost use Rattle.hp_frame.specs.Spelling.{spelling, HasSpelling, Spells};
ghost use Rattle.hp_frame.specs.FirstFault.{first_fault};

/// A text is the frame of one message at most: no two messages have one spelling. Own.
pub fn spellings_differ()
    ensures { (text : List ℕ) (m n : Message) → Spells text m → Spells text n → m ≡ n }
{}

/// The frame of a message has no fault, so what is written is read again. Own.
pub fn frames_have_no_fault()
    ensures { (text : List ℕ) (m : Message) → Spells text m → first_fault text ≡ None }
{}
