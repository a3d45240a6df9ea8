//! Sets of kinds of the data model.
ghost use Rattle.std.specs.Prelude.{◌≡◌};
ghost use Rattle.ild_schema.specs.Kinds.{has_kind, has_none, has_only, no_kinds, only, with_kind, without_kind};

use crate::KindWord;

/// Some of the kinds that a value of the data model can have.
#[derive(Clone, Copy)]
pub struct Kinds {
    pub null: bool,
    pub boolean: bool,
    pub int: bool,
    pub text: bool,
    pub bytes: bool,
    pub list: bool,
    pub map: bool,
    pub link: bool,
}

impl Kinds {
    /// No kind.
    pub fn none() -> Kinds
        ensures { result ≡ no_kinds }
    {
        Kinds {
            null: false,
            boolean: false,
            int: false,
            text: false,
            bytes: false,
            list: false,
            map: false,
            link: false,
        }
    }

    /// One kind.
    pub fn only(kind: KindWord) -> Kinds
        ensures { result ≡ only kind }
    {
        Kinds::none().with(kind)
    }

    /// These kinds, and one more.
    pub fn with(self, kind: KindWord) -> Kinds
        ensures { result ≡ with_kind kind self }
    {
        match kind {
            KindWord::Null => Kinds { null: true, ..self },
            KindWord::Bool => Kinds {
                boolean: true,
                ..self
            },
            KindWord::Int => Kinds { int: true, ..self },
            KindWord::Text => Kinds { text: true, ..self },
            KindWord::Bytes => Kinds {
                bytes: true,
                ..self
            },
            KindWord::List => Kinds { list: true, ..self },
            KindWord::Map => Kinds { map: true, ..self },
            KindWord::Link => Kinds { link: true, ..self },
        }
    }

    /// These kinds but for one.
    pub fn without(self, kind: KindWord) -> Kinds
        ensures { result ≡ without_kind kind self }
    {
        match kind {
            KindWord::Null => Kinds {
                null: false,
                ..self
            },
            KindWord::Bool => Kinds {
                boolean: false,
                ..self
            },
            KindWord::Int => Kinds { int: false, ..self },
            KindWord::Text => Kinds {
                text: false,
                ..self
            },
            KindWord::Bytes => Kinds {
                bytes: false,
                ..self
            },
            KindWord::List => Kinds {
                list: false,
                ..self
            },
            KindWord::Map => Kinds { map: false, ..self },
            KindWord::Link => Kinds {
                link: false,
                ..self
            },
        }
    }

    /// Whether a kind is among them.
    pub fn has(self, kind: KindWord) -> bool
        ensures { result ≡ has_kind kind self }
    {
        match kind {
            KindWord::Null => self.null,
            KindWord::Bool => self.boolean,
            KindWord::Int => self.int,
            KindWord::Text => self.text,
            KindWord::Bytes => self.bytes,
            KindWord::List => self.list,
            KindWord::Map => self.map,
            KindWord::Link => self.link,
        }
    }

    /// Whether there is no kind among them.
    pub fn is_none(self) -> bool
        ensures { result ≡ has_none self }
    {
        !(self.null
            || self.boolean
            || self.int
            || self.text
            || self.bytes
            || self.list
            || self.map
            || self.link)
    }

    /// Whether they are one kind alone.
    pub fn has_only(self, kind: KindWord) -> bool
        ensures { result ≡ has_only kind self }
    {
        self.has(kind) && self.without(kind).is_none()
    }
}
