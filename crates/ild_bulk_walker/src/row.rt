//! One entry that a walk gives.
use ild_data::{BlockId, Octets, Txt};
use ild_data_order::Keyed;

/// A key, the spelling of its value, and the id of the block in which the entry stands.
#[derive(Drop)]
pub struct Row {
    pub key: Txt,
    pub value: Octets,
    pub block: BlockId,
}

impl Keyed for Row {
    ghost key_seen = { λ row. row.key };

    fn key(&self) -> &str {
        self.key.as_str()
    }
}
