//! Facts of the definitions that the crates above cite, each told by a function that does nothing.

ghost use Rattle.std.specs.Prelude.{◌≡◌, ℕ, Bool, true, List, []};
ghost use Rattle.xml_lexer.specs.Characters.{Text};
ghost use Rattle.xml_lexer.specs.Token.{Token};
ghost use Rattle.xml_lexer.specs.Cut.{Follow};
ghost use Rattle.xml_lexer.specs.Phases.{without_mark, IsText, Covers, IsTokensOf, RefusesText, RefusesToken, RefusesMany};

/// At most one list of tokens covers a text.
pub fn tokens_are_unique()
    ensures { (text : Text) (ks others : List Token) → Follow true text ks [] → Follow true text others [] → ks ≡ others }
{}

/// The answers of `read_tokens` leave one another out, and each has one place.
pub fn answers_exclude()
    ensures text_place { (bytes : Text) (p q : ℕ) → RefusesText bytes p → RefusesText bytes q → p ≡ q }
    ensures text_first { (bytes : Text) (p : ℕ) → RefusesText bytes p → IsText (without_mark bytes) → ⊥ }
    ensures token_place { (bytes : Text) (d e : Bool) (p q : ℕ) → RefusesToken bytes d p → RefusesToken bytes e q → (d ≡ e) × (p ≡ q) }
    ensures token_first { (bytes : Text) (d : Bool) (p : ℕ) (ks : List Token) → RefusesToken bytes d p → Covers (without_mark bytes) ks → ⊥ }
    ensures many_first { (bytes : Text) (ks : List Token) → RefusesMany bytes → IsTokensOf ks bytes → ⊥ }
{}
