//! The metapage of a tree.
ghost use Rattle.std.specs.Prelude.{◌≡◌};
ghost use Rattle.page_layout.specs.Writes.{with_bytes};
ghost use Rattle.page_write.specs.Pages.{meta_bytes, meta_page};

use crate::page::{blank_page, header_with, put_opaque};
use bt_meta::{Meta, Opaque};
use page_layout::{put_header, put_u32};

// Writes the numbers of a tree after the header.
fn put_meta(page: &mut [u8; 8192], meta: Meta)
    ensures { page.new ≡ with_bytes page.old 24 (meta_bytes meta) }
{
    put_u32(page, 24, meta.magic);
    put_u32(page, 28, meta.version);
    put_u32(page, 32, meta.root);
    put_u32(page, 36, meta.level);
    put_u32(page, 40, meta.fastroot);
    put_u32(page, 44, meta.fastlevel);
}

/// Block 0 of a tree with these numbers (`_bt_initmetapage`; of the numbers after `fastlevel` none is
/// written).
pub fn meta_page(meta: Meta) -> [u8; 8192]
    ensures { result ≡ meta_page meta }
{
    let mut page = blank_page();
    put_header(&mut page, header_with(72, 8176, 8176));
    put_meta(&mut page, meta);
    put_opaque(
        &mut page,
        Opaque {
            prev: 0,
            next: 0,
            level: 0,
            flags: 8,
            cycle: 0,
        },
    );
    page
}
