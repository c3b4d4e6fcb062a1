//! Pages and tuples, piece by piece.

/// Bytes of a page from a place on.
pub type Piece<'a> = (usize, &'a [u8]);

// Writes bytes into a page from a place on, as far as it reaches.
fn put_bytes(page: &mut [u8], at: usize, bytes: &[u8]) {
    for (i, byte) in bytes.iter().enumerate() {
        let place = at.saturating_add(i);
        if place < page.len() {
            page[place] = *byte;
        }
    }
}

/// Writes pieces into a page, as far as it reaches.
pub fn put(page: &mut [u8], pieces: &[Piece<'_>]) {
    for (at, bytes) in pieces {
        put_bytes(page, *at, bytes);
    }
}

/// A page of zeros but for some pieces.
pub fn page_of(pieces: &[Piece<'_>]) -> [u8; 8192] {
    let mut page = [0u8; 8192];
    put(&mut page, pieces);
    page
}
