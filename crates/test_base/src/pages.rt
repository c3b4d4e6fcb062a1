//! Pages, piece by piece.

/// Bytes of a page from a place on.
pub type Piece = (usize, &'static [u8]);

/// Writes pieces into a page, as far as it reaches.
pub fn put(page: &mut [u8; 8192], pieces: &[Piece]) {
    for (at, bytes) in pieces {
        put_bytes(page, *at, bytes);
    }
}

fn put_bytes(page: &mut [u8; 8192], at: usize, bytes: &[u8]) {
    for (i, byte) in bytes.iter().enumerate() {
        let place = at.saturating_add(i);
        if place < 8192 {
            page[place] = *byte;
        }
    }
}

/// A page of zeros but for some pieces.
pub fn page_of(pieces: &[Piece]) -> [u8; 8192] {
    let mut page = [0u8; 8192];
    put(&mut page, pieces);
    page
}
