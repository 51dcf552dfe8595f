ghost use Rattle.std.specs.Prelude.{◌≡◌, ◌↔◌, ◌+◌, ◌≤◌, ℕ, List, [], length};
ghost use Rattle.std.specs.Str.Lines.{lines};

/// A text has no more lines than bytes.
pub fn lines_are_few()
    ensures { (text : List ℕ) → length (lines text) ≤ length text }
{}

/// A text without lines is the empty one.
pub fn no_line_where_nothing_is()
    ensures { (text : List ℕ) → (lines text ≡ []) ↔ (text ≡ []) }
{}
