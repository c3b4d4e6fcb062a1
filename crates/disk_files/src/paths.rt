//! The path of a file.
ghost use Rattle.std.specs.Prelude.{◌≡◌, ◌++◌, ◌-◌, replicate, true, IfOk, codes, decimal, string_bytes};
ghost use Rattle.std.specs.Fmt.{digits};
ghost use Rattle.disk_files.specs.Paths.{four_digits, path_text};

use outside::{FileName, NoMemory, Part};
use std::alloc::{AllocError, Global};

// The base, a dot and a number.
fn numbered(alloc: Global, base: &str, k: u32) -> Result<String, AllocError>
    ensures { IfOk result (λ path. string_bytes path ≡ base.now ++ codes "." ++ decimal k) }
{
    format!(in alloc; "{base}.{k}")
}

// The zeros before so many digits that make them four.
fn zeros_before(digits: usize) -> &'static str
    ensures { result.now ≡ replicate (4 - digits) 48 }
{
    match digits {
        0 => "0000",
        1 => "000",
        2 => "00",
        3 => "0",
        _ => "",
    }
}

// The base, a slash and a number in hexadecimal of at least four digits.
fn in_folder(alloc: Global, base: &str, k: u32) -> Result<String, AllocError>
    ensures { IfOk result
        (λ path. string_bytes path ≡ base.now ++ codes "/" ++ four_digits (digits 16 true k)) }
{
    let digits = format!(in alloc; "{k:X}")?;
    let zeros = zeros_before(digits.len());
    format!(in alloc; "{base}/{zeros}{digits}")
}

/// The path of a file, from its name: the base alone for segment 0 of a relation, the base, a dot and
/// the number in decimal for a later one, and the base, a slash and the number in upper-case
/// hexadecimal of at least four digits for a segment of a log (PostgreSQL's `md.c` and `slru.c`).
pub fn path_of(alloc: Global, name: FileName<'_>) -> Result<String, NoMemory>
    ensures { IfOk result
        (λ path. string_bytes path ≡ path_text name.entry.base.now name.entry.part) }
{
    let base = name.base;
    match name.part {
        Part::Segment(0) => Ok(String::from_str(alloc, base)?),
        Part::Segment(k) => Ok(numbered(alloc, base, k)?),
        Part::Slru(k) => Ok(in_folder(alloc, base, k)?),
    }
}
