ghost use Rattle.std.specs.Prelude.{◌≡◌, ℕ, List, true};
ghost use Rattle.epl_values.specs.declared.shape.Shape.TheVariants.{Event as OfEvent};
ghost use Rattle.epl_values.specs.declared.value.Value.{Value};
ghost use Rattle.value_rules.specs.Shapes.{has};
ghost use Rattle.value_rules.specs.Texts.{text_in};
ghost use Rattle.evt_text.specs.Forms.{HasNames};
ghost use Rattle.evt_text.specs.Readable.{HaveTexts, IsReadable, IsReadAgain};
ghost use Rattle.evt_text.specs.Spelling.{Spells};
ghost use Rattle.typed_program.specs.declared.program.Program.{Program};
ghost use Rattle.typed_program.specs.Typed.{Typed};

use evt_text::texts_are_read_again;

/// No field of an event of a typed program holds a context or a listener, so the text of an event that has its shape, and is
/// within the limits, spells it. Where the types have names, the same event is read there wherever that text stands, and whatever
/// follows it, up to the end of the text.
pub fn events_are_read_again()
    ensures texts { (program : Program) → Typed program → HaveTexts program.types }
    ensures spells { (program : Program) → Typed program → (n : ℕ) (x : Value) → has program.types x (OfEvent n) ≡ true → IsReadable x → Spells program.types (OfEvent n) x (text_in program.types x) }
    ensures again { (program : Program) → Typed program → HasNames program.types → (n : ℕ) (x : Value) (before rest : List ℕ) → has program.types x (OfEvent n) ≡ true → IsReadable x → IsReadAgain program.types n x before (text_in program.types x) rest }
{
    texts_are_read_again();
}
