ghost use Rattle.std.specs.Prelude.{◌≡◌, ℕ, List, true};
ghost use Rattle.epl_values.specs.declared.shape.EventShape.{EventShape};
ghost use Rattle.epl_values.specs.declared.shape.Shape.TheVariants.{Event as OfEvent};
ghost use Rattle.epl_values.specs.declared.value.Value.{Value};
ghost use Rattle.value_rules.specs.Shapes.{has};
ghost use Rattle.value_rules.specs.Texts.{text_in};
ghost use Rattle.evt_text.specs.Forms.{HasNames};
ghost use Rattle.evt_text.specs.Readable.{HaveTexts, IsReadable, IsReadAgain};
ghost use Rattle.evt_text.specs.Spelling.{Spells};

/// The text of an event spells it, where the event has its shape and is within the limits. Wherever that text stands, and
/// whatever follows it, the same event is read there, up to the end of the text.
pub fn texts_are_read_again()
    ensures spells { (types : List EventShape) (n : ℕ) (x : Value) → HaveTexts types → has types x (OfEvent n) ≡ true → IsReadable x → Spells types (OfEvent n) x (text_in types x) }
    ensures again { (types : List EventShape) (n : ℕ) (x : Value) (before rest : List ℕ) → HaveTexts types → HasNames types → has types x (OfEvent n) ≡ true → IsReadable x → IsReadAgain types n x before (text_in types x) rest }
{}
