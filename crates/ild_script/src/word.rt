//! The words of the line grammar.
ghost use Rattle.std.specs.Prelude.{◌≡◌};
ghost use Rattle.ild_script.specs.Line.{word_of, shape_of};

/// The word that a line begins with.
#[derive(Clone, Copy, Debug, PartialEq, Eq)]
pub enum Word {
    Get,
    Rep,
    Has,
    Len,
    Walk,
    Del,
    Set,
    Ins,
    Root,
    Begin,
    Commit,
    Abort,
}

/// What stands behind a word: nothing, a path, or a path and a json text.
#[derive(Clone, Copy, Debug, PartialEq, Eq)]
pub enum Shape {
    Alone,
    WithPath,
    WithJson,
}

/// The word that a text is.
pub(crate) fn word_of(text: &str) -> Option<Word>
    ensures { result ≡ word_of text.now }
{
    match text {
        "get" => Some(Word::Get),
        "rep" => Some(Word::Rep),
        "has" => Some(Word::Has),
        "len" => Some(Word::Len),
        "walk" => Some(Word::Walk),
        "del" => Some(Word::Del),
        "set" => Some(Word::Set),
        "ins" => Some(Word::Ins),
        "root" => Some(Word::Root),
        "begin" => Some(Word::Begin),
        "commit" => Some(Word::Commit),
        "abort" => Some(Word::Abort),
        _ => None,
    }
}

impl Word {
    /// What stands behind the word in a line.
    pub fn shape(self) -> Shape
        ensures { result ≡ shape_of self }
    {
        match self {
            Word::Get | Word::Rep | Word::Has | Word::Len | Word::Walk | Word::Del =>
                Shape::WithPath,
            Word::Set | Word::Ins => Shape::WithJson,
            Word::Root | Word::Begin | Word::Commit | Word::Abort => Shape::Alone,
        }
    }
}
