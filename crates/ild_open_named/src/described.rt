//! What a root tells that names its schema.
use ild_data::{BlockId, Txt};

/// What a root tells that names its schema: the name of its type, the id of the block of the schema's text, and the text.
#[derive(Drop)]
pub struct Described {
    pub type_name: Txt,
    pub schema: BlockId,
    pub source: Txt,
}
