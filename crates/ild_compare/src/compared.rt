//! What a comparison of two trees tells.
use ild_data::Octets;

/// What a comparison of two trees tells.
#[derive(Drop)]
pub enum Compared {
    /// The trees are one.
    Same,
    /// The roots differ.
    Other,
    /// Under one id the first store holds the first bytes, and the second store the second.
    Collide(Octets, Octets),
}
