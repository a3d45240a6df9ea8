//! Laws of the grammar, over all tokens.
ghost use Rattle.ild_parse_grammar.specs.Laws.{OneTree, OneWrongPlace, TreeOrPlace, SomeTreeOrPlace, FrontsBegin};

/// Tokens derive no second tree.
pub fn one_tree()
    ensures { OneTree }
{}

/// There is one place at most at which the tokens of a source stop being a text of the grammar.
pub fn one_wrong_place()
    ensures { OneWrongPlace }
{}

/// Tokens that derive a tree have no such place.
pub fn tree_or_place()
    ensures { TreeOrPlace }
{}

/// Each source has a tree or such a place.
pub fn some_tree_or_place()
    ensures { SomeTreeOrPlace }
{}

/// The front of what begins a text of the grammar begins one.
pub fn fronts_begin()
    ensures { FrontsBegin }
{}
