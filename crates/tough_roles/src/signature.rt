use tough_decoded::{Decoded, Hex};

/// A signature, and the identifier of the key that it is by.
#[derive(Debug, Drop, PartialEq)]
pub struct Signature {
    pub keyid: Decoded<Hex>,
    pub sig: Decoded<Hex>,
}
