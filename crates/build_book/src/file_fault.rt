//! Why a piece is not filed.
use thiserror::Error;

/// Why a book refuses a piece.
#[derive(Clone, Copy, Debug, PartialEq, Eq, Error)]
pub enum FileFault {
    /// The jobs of piece and book differ in content.
    #[error("the piece is of another job")]
    Stranger,
    /// A place of the piece is taken already; `layer` is the number of the least such place.
    #[error("layer {layer} is taken")]
    Double { layer: u32 },
}
