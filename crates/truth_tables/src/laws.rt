//! What the definition of expressions says, as laws.

ghost use Rattle.std.specs.Prelude.{◌≡◌, ◌↔◌, List, Some, option_map, filter, map};
ghost use Rattle.wpds_port.specs.declared.Word.{Word};
ghost use Rattle.wpds_port.specs.Tokens.{word_text};
ghost use Rattle.truth_tables.specs.Grammar.{Tree, Writes, IsExpression, tree_variables, is_variable_word};
ghost use Rattle.truth_tables.specs.Stacks.{tree_of};
ghost use Rattle.truth_tables.specs.Machine.{Parts, folded, made_of};

/// Words are read as a tree exactly where it groups as the levels say and writes these words. So
/// they are one tree at most.
pub fn one_tree()
    ensures { (words : List Word) (e : Tree) → (tree_of words ≡ Some e) ↔ Writes e words }
{}

/// What is made of words a word at a time is what is made of the tree that they are, whatever is
/// made of its parts.
pub fn one_making<X, N>()
    ensures { (p : Parts X N) (words : List Word) → made_of p words
        ≡ option_map (folded p) (tree_of words) }
{}

/// The variables of an expression, in order and as often as they stand, are the names among its
/// words other than `tab2` and `tab3`.
pub fn variables_among_words()
    ensures { (words : List Word) (e : Tree) → IsExpression words e
        → tree_variables e ≡ map word_text (filter is_variable_word words) }
{}
