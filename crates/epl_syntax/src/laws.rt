//! What a list of tokens is, and that files have one list of trees or one fault.

ghost use Rattle.std.specs.Prelude.{◌≡◌, ◌+◌, ◌≤◌, ℕ, List, length};
ghost use Rattle.epl_tree.specs.declared.unit.Unit.{Unit as Tree};
ghost use Rattle.epl_lexer.specs.declared.token.Token.{Token as TheToken};
ghost use Rattle.span_text.specs.declared.spot.Spot.{Spot as TheSpot};
ghost use Rattle.epl_lexer.specs.Tokens.{AreTokens, EndsOnce, IsLexFault};
ghost use Rattle.decl_parser.specs.Pieces.{IsFault};
ghost use Rattle.epl_syntax.specs.Trees.{AreTrees, IsFirstWithout, IsUnparsed, IsUnread};

/// The tokens of a text end with their only end.
pub fn tokens_end_once()
    ensures { (text : List ℕ) (tokens : List TheToken) → AreTokens text tokens → EndsOnce tokens }
{}

/// A text has at most one token for each of its bytes, and the end.
pub fn tokens_are_few()
    ensures { (text : List ℕ) (tokens : List TheToken) → AreTokens text tokens → length tokens ≤ length text + 1 }
{}

/// A text has its lex fault at one place.
pub fn fault_has_one_place()
    ensures { (text : List ℕ) (one other : TheSpot) → IsLexFault text one → IsLexFault text other → one ≡ other }
{}

/// Tokens have their syntax fault at one place.
pub fn syntax_fault_has_one_place()
    ensures { (tokens : List TheToken) (one other : TheSpot) → IsFault tokens one → IsFault tokens other → one ≡ other }
{}

/// Files have one list of trees. Those that have it have no first file without a tree.
pub fn files_have_one_list_of_trees()
    ensures only { (texts : List (List ℕ)) (one other : List Tree) → AreTrees texts one → AreTrees texts other → one ≡ other }
    ensures unread { (texts : List (List ℕ)) (trees : List Tree) (file : ℕ) (spot : TheSpot) → AreTrees texts trees → IsFirstWithout texts file (λ bytes. IsUnread bytes spot) → ⊥ }
    ensures unparsed { (texts : List (List ℕ)) (trees : List Tree) (file : ℕ) (spot : TheSpot) → AreTrees texts trees → IsFirstWithout texts file (λ bytes. IsUnparsed bytes spot) → ⊥ }
{}

/// The first file without a tree is one, and has one lex fault or one syntax fault.
pub fn files_have_one_fault()
    ensures unread { (texts : List (List ℕ)) (file place : ℕ) (one other : TheSpot) → IsFirstWithout texts file (λ bytes. IsUnread bytes one) → IsFirstWithout texts place (λ bytes. IsUnread bytes other) → (file ≡ place) × (one ≡ other) }
    ensures unparsed { (texts : List (List ℕ)) (file place : ℕ) (one other : TheSpot) → IsFirstWithout texts file (λ bytes. IsUnparsed bytes one) → IsFirstWithout texts place (λ bytes. IsUnparsed bytes other) → (file ≡ place) × (one ≡ other) }
    ensures apart { (texts : List (List ℕ)) (file place : ℕ) (one other : TheSpot) → IsFirstWithout texts file (λ bytes. IsUnread bytes one) → IsFirstWithout texts place (λ bytes. IsUnparsed bytes other) → ⊥ }
{}
