//! Forms of grammars over a row of bytes, tokens or anything, their readers, and lemmas that a reader reads just what
//! its form says. They are definitions and lemmas; the functions here state the laws.
#![tactic(auto)]

ghost use Rattle.std.specs.Prelude.{ℕ, List};
ghost use Rattle.grammar_forms.specs.Rule.{Row};
ghost use Rattle.grammar_forms.specs.Reader.{Reader};
ghost use Rattle.grammar_forms.specs.Good.{Good, ReadsLongest};

/// A type of trees with the form of a grammar: which trees span which places.
pub trait Spanning {
    ghost use Rattle.std.specs.Prelude.{ℕ};

    /// Whether the tree spans the places from the first up to before the second.
    ghost spans: { Self → ℕ → ℕ → Type 0 };
}

/// The law of a good reader: what it answers is a tree of the form, no tree from that place is longer, no other is as
/// long, and where it answers none there is no tree.
pub fn reads_longest<T: Spanning>()
    ensures { (row : Row) (read : Reader T) (starts ext : List ℕ) → Good row T.spans read starts ext → ReadsLongest T.spans read }
{}
