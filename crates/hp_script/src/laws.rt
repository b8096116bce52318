//! Laws of the language, each the contract of a call that does nothing.

ghost use Rattle.std.specs.Prelude.{◌≡◌, ℕ, ◌+◌, ◌*◌, ◌<◌, ◌≤◌, List, ◌++◌, ◌∷◌, All, true, false, length, Ok, Some};
ghost use Rattle.std.specs.List.{list_any};
ghost use denote.Ref.{Bor};
ghost use Rattle.hp_script.specs.Part.{Part};
ghost use Rattle.hp_script.specs.Text.{is_separator, without_return, lines_in, lines_of};
ghost use Rattle.hp_script.specs.Makers.{Makers};
ghost use Rattle.hp_script.specs.Marks.{is_marked};
ghost use Rattle.hp_script.specs.Said.{says_absent, says_socket};
ghost use Rattle.hp_script.specs.Setups.{nothing};
ghost use Rattle.hp_script.specs.ShapeWords.Shapes.{is_participant_line, shape_of};
ghost use Rattle.hp_script.specs.ShapeWords.Verbs.{verb_named};
ghost use Rattle.hp_script.specs.ShapeWords.ActVerbs.{verb_of, verb_word};
ghost use Rattle.hp_script.specs.Workloads.{read_from, read_further, reading_of};
ghost use Rattle.hp_script.specs.DrawnWords.Generated.{IsReadAsDrawn};
ghost use Rattle.hp_script.specs.DrawnWords.GeneratedText.{generated_text};
ghost use Rattle.hp_script.specs.declared.line.Act.{Act};
ghost use Rattle.hp_script.specs.declared.reader.Reader.{Reader};
ghost use Rattle.hp_script.specs.declared.shape.Shape.TheVariants.{Does};
ghost use Rattle.hp_script.specs.declared.text.Separator.TheVariants.{Newline};

/// The lines of a line, a newline and a rest are that line and the lines of the rest, wherever the text stands. Proved of
/// all texts; the function has no code. Own.
pub fn lines_law()
    ensures whole { (bytes : Bor (List ℕ)) → lines_of bytes ≡ lines_in (record { start = 0; text = bytes.now; base = bytes.ref_ptr }) }
    ensures more { (base : ℕ × ℕ) (start : ℕ) (line rest : List ℕ) → All (λ byte. is_separator Newline byte ≡ false) line
        → lines_in (record { start = start; text = line ++ 10 ∷ rest; base = base })
        ≡ without_return (record { start = start; text = line; base = base }) ∷ lines_in (record { start = start + length line + 1; text = rest; base = base }) }
{}

/// The reading of lines and further ones is that of the further ones, from the state after the first. Proved of all lines;
/// the function has no code. Own.
pub fn reading_law()
    ensures { (makers : Makers) (read : Reader) (number : ℕ) (lines others : List Part)
        → read_from makers read number (lines ++ others) ≡ read_further (read_from makers read number lines) (λ more. read_from makers more (number + length lines) others) }
{}

/// `absent` and `socket` are refused as said twice for a participant exactly where an earlier accepted line says it: a
/// participant is marked where one of the lines so far does. Proved of all lines; the function has no code. Own.
pub fn once_law()
    ensures absent { (makers : Makers) (lines : List Part) (read : Reader) (party : ℕ) → party < 16 → read_from makers nothing 1 lines ≡ Ok read
        → is_marked read.absent party ≡ list_any (says_absent party) lines }
    ensures socket { (makers : Makers) (lines : List Part) (read : Reader) (party : ℕ) → party < 16 → read_from makers nothing 1 lines ≡ Ok read
        → is_marked read.placed party ≡ list_any (says_socket party) lines }
{}

/// The word of an act's verb is read as that verb, and an act that is read has the verb that its word names. Proved of all
/// lines; the function has no code. Own.
pub fn verbs_law()
    ensures word { (start : ℕ) (base : ℕ × ℕ) (deed : Act) → verb_named (record { start = start; text = verb_word deed; base = base }) ≡ Some (verb_of deed) }
    ensures read { (first word : Part) (arguments : List Part) (party : ℕ) (deed : Act) → is_participant_line first ≡ true
        → shape_of (first ∷ word ∷ arguments) ≡ Ok (Does party deed) → verb_named word ≡ Some (verb_of deed) }
{}

/// The text that the generator writes is a workload: up to 20,000 lines are read, from any start, as many as are asked for, and
/// each as it was drawn. Proved of all starts; the function has no code. Own.
pub fn generated_law()
    ensures read { (start lines : ℕ) → lines ≤ 20000 → IsReadAsDrawn start lines (reading_of (generated_text start lines)) }
    ensures short { (start lines : ℕ) → lines ≤ 20000 → length (generated_text start lines) ≤ 45 + 30 * lines }
{}
