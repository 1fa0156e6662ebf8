//! Long texts: a way through them that is not linear would not end in time.
use std::alloc::{AllocError, Global};

/// A piece again and again.
pub fn repeated(alloc: Global, piece: &[u8], count: usize) -> Result<Vec<u8>, AllocError> {
    let mut text = Vec::new(alloc);
    for _ in 0..count {
        text.extend_from_slice(piece)?;
    }
    Ok(text)
}
