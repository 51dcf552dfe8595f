ghost use Rattle.std.specs.Prelude.{List};
ghost use Rattle.record_book.specs.declared.item.Item.{Item};
ghost use Rattle.record_book.specs.declared.record.Record.{Record};
ghost use Rattle.record_book.specs.declared.record.Settings.{Settings};
ghost use Rattle.typed_program.specs.declared.program.Program.{Program};
ghost use Rattle.naive_meaning.specs.Faithful.{FaithfulRecord};
ghost use Rattle.naive_meaning.specs.Records.{IsFaithful};

/// What the theory of actors says of a faithful record, and what a record says of itself in its own words, are the same.
pub fn faithful_in_words()
    ensures words { (p : Program) (items : List Item) (settings : Settings) (r : Record) → IsFaithful p items settings r → FaithfulRecord p items settings r }
    ensures back { (p : Program) (items : List Item) (settings : Settings) (r : Record) → FaithfulRecord p items settings r → IsFaithful p items settings r }
{}
