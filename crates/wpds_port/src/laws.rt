//! What the definition of the cutting says, as laws.

ghost use Rattle.std.specs.Prelude.{◌≡◌, ◌↔◌, ℕ, List, Some, None, IsTrue};
ghost use Rattle.std.specs.List.{AllByRecursion};
ghost use Rattle.wpds_port.specs.Tokens.{tokens, is_word, stops, AreTokens, AreInOrder, StandsIn, IsLongest, IsStuck, Token, Word};

/// The tokens of a line are the one list of words that, with blanks between, make the line, each of them as long as it can be.
pub fn one_list_of_tokens()
    ensures { (line : List ℕ) (ts : List Token) → (tokens line ≡ Some ts) ↔ AreTokens 0 line ts }
{}

/// A line has no tokens exactly where the cutting meets a byte that begins none.
pub fn no_list_of_tokens()
    ensures { (line : List ℕ) → (tokens line ≡ None) ↔ IsStuck line }
{}

/// A word stops before a rest exactly where the text of both begins with no longer word.
pub fn words_stop_at_their_longest()
    ensures { (w : Word) (rest : List ℕ)
        → IsTrue (is_word w) → IsTrue (stops w rest) ↔ IsLongest w rest }
{}

/// Each token is the bytes of its line from its start up to its end, and they stand in order.
pub fn tokens_stand_in_order()
    ensures stand { (line : List ℕ) (ts : List Token)
        → AreTokens 0 line ts → AllByRecursion (StandsIn line) ts }
    ensures order { (line : List ℕ) (ts : List Token) → AreTokens 0 line ts → AreInOrder 0 ts }
{}
