//! A page that is laid item by item.

/// Writes bytes from a place on, as far as they reach.
pub fn put(bytes: &mut [u8], at: u16, piece: &[u8]) {
    for (k, byte) in piece.iter().enumerate() {
        let place = at as usize + k;
        if place < bytes.len() {
            bytes[place] = *byte;
        }
    }
}

/// A page to which items are added, with their tuples from its special space downward.
#[derive(Drop)]
pub struct Page {
    bytes: [u8; 8192],
    lower: u16,
    upper: u16,
    special: u16,
}

impl Page {
    /// A page without items, whose special space begins here: at 8192 it has none.
    pub fn new(special: u16) -> Page {
        Page {
            bytes: [0; 8192],
            lower: 24,
            upper: special,
            special,
        }
    }

    /// Adds an item, dead or normal, for a tuple of so many bytes, and says where the tuple begins.
    pub fn add(&mut self, len: u16, is_dead: bool) -> u16 {
        let room = len.saturating_add(7) / 8 * 8;
        self.upper = self.upper.saturating_sub(room);
        let flags: u32 = if is_dead { 0x18000 } else { 0x8000 };
        let pointer = u32::from(len % 0x8000) * 0x20000 + flags;
        let pointer = pointer.wrapping_add(u32::from(self.upper));
        put(&mut self.bytes, self.lower, &pointer.to_le_bytes());
        self.lower = self.lower.saturating_add(4);
        self.upper
    }

    /// Writes bytes from a place on.
    pub fn put(&mut self, at: u16, piece: &[u8]) {
        put(&mut self.bytes, at, piece);
    }

    /// Writes numbers of two bytes from a place on.
    pub fn put_halves(&mut self, at: u16, halves: &[u16]) {
        let mut place = at;
        for half in halves {
            put(&mut self.bytes, place, &half.to_le_bytes());
            place = place.saturating_add(2);
        }
    }

    /// Adds an item for a tuple of these numbers.
    pub fn add_halves(&mut self, halves: &[u16], is_dead: bool) {
        let at = self.add(2 * halves.len().min(4000) as u16, is_dead);
        self.put_halves(at, halves);
    }

    /// Writes the page's header, and gives its bytes.
    pub fn finish(self) -> [u8; 8192] {
        let lower = self.lower;
        self.finish_at(lower)
    }

    /// The same with this lower place in the header.
    pub fn finish_at(mut self, lower: u16) -> [u8; 8192] {
        let header = [lower, self.upper, self.special, 0x2004];
        self.put_halves(12, &header);
        self.bytes
    }
}
