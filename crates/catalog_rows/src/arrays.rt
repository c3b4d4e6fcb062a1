//! The numbers of an int2vector and of an oidvector.
ghost use Rattle.std.specs.Prelude.{◌≡◌, ◌+◌, ◌*◌, ◌<◌, ◌≤◌, ℕ, ℤ, IfOk, List, length, map, option_map};
ghost use Rattle.std.specs.Bool.{OnTrue};
ghost use Rattle.std.specs.List.{range_with_len};
ghost use Rattle.catalog_rows.specs.Arrays.{int2_in, int2s_in, is_array, is_vector, oid_in, oids_in, stated_count};
ghost use Rattle.catalog_rows.specs.Laws.{Int2sAreTold, OidsAreTold};

use outside::NoMemory;
use page_layout::{u16_at, u32_at};
use std::alloc::Global;

const INT2_OID: u32 = 21;

const OID_OID: u32 = 26;

/// Whether a content begins with the five numbers of an array of one dimension without nulls, with elements of a
/// type, the first of which has a number.
#[tactic(auto, unfolding(crate::specs::Arrays::is_array))]
pub(crate) fn is_array(content: &[u8], element_type: u32, first: u32) -> bool
    ensures value { result ≡ is_array content.now element_type first }
    ensures room { OnTrue result (20 ≤ length content.now) }
{
    20 <= content.len()
        && u32_at(content, 0) == 1
        && u32_at(content, 4) == 0
        && u32_at(content, 8) == element_type
        && u32_at(content, 16) == first
}

/// How many elements an array states.
#[tactic(auto, unfolding(crate::specs::Arrays::stated_count))]
pub(crate) fn stated_count(content: &[u8]) -> u32
    requires { 20 ≤ length content.now }
    ensures { result ≡ stated_count content.now }
{
    u32_at(content, 12)
}

// Whether a content is a vector: such an array numbered from 0, of elements of so many bytes, and nothing behind them.
#[tactic(auto, unfolding(crate::specs::Arrays::is_vector))]
fn is_vector(content: &[u8], element_type: u32, size: u8) -> bool
    requires { size ≤ 8 }
    ensures value { result ≡ is_vector content.now element_type size }
    ensures room { OnTrue result (20 ≤ length content.now) }
    ensures ends { OnTrue result (length content.now ≡ 20 + size * stated_count content.now) }
{
    is_array(content, element_type, 0)
        && content.len() == 20 + size as usize * stated_count(content) as usize
}

#[tactic(auto, unfolding(crate::specs::Arrays::int2_in))]
fn int2_in(content: &[u8], k: u32) -> i16
    requires { 20 + 2 * k + 2 ≤ length content.now }
    ensures { result ≡ int2_in content.now k }
{
    u16_at(content, 20 + 2 * k as usize).cast_signed()
}

#[tactic(auto, unfolding(crate::specs::Arrays::oid_in))]
fn oid_in(content: &[u8], k: u32) -> u32
    requires { 20 + 4 * k + 4 ≤ length content.now }
    ensures { result ≡ oid_in content.now k }
{
    u32_at(content, 20 + 4 * k as usize)
}

// The first numbers of a vector.
fn int2s_upto(alloc: Global, content: &[u8], count: u32) -> Result<Vec<i16>, NoMemory>
    requires { length content.now ≡ 20 + 2 * count }
    ensures { IfOk result (λ v. v.items ≡ map (int2_in content.now) (range_with_len 0 count)) }
{
    let mut numbers = Vec::new(alloc);
    for k in 0..count {
        numbers.push(int2_in(content, k))?;
    }
    Ok(numbers)
}

// The first oids of a vector.
fn oids_upto(alloc: Global, content: &[u8], count: u32) -> Result<Vec<u32>, NoMemory>
    requires { length content.now ≡ 20 + 4 * count }
    ensures { IfOk result (λ v. v.items ≡ map (oid_in content.now) (range_with_len 0 count)) }
{
    let mut oids = Vec::new(alloc);
    for k in 0..count {
        oids.push(oid_in(content, k))?;
    }
    Ok(oids)
}

/// The numbers of an int2vector: `None` exactly where the content, without its header, isn't one.
#[tactic(auto, unfolding(crate::specs::Arrays::int2s_in))]
pub fn int2_vector(alloc: Global, content: &[u8]) -> Result<Option<Vec<i16>>, NoMemory>
    ensures { IfOk result (λ found. option_map (λ v. v.items) found ≡ int2s_in content.now) }
{
    if is_vector(content, INT2_OID, 2) {
        let numbers = int2s_upto(alloc, content, stated_count(content))?;
        return Ok(Some(numbers));
    }
    Ok(None)
}

/// The oids of an oidvector: `None` exactly where the content, without its header, isn't one.
#[tactic(auto, unfolding(crate::specs::Arrays::oids_in))]
pub fn oid_vector(alloc: Global, content: &[u8]) -> Result<Option<Vec<u32>>, NoMemory>
    ensures { IfOk result (λ found. option_map (λ v. v.items) found ≡ oids_in content.now) }
{
    if is_vector(content, OID_OID, 4) {
        let oids = oids_upto(alloc, content, stated_count(content))?;
        return Ok(Some(oids));
    }
    Ok(None)
}

/// What is read of a content is what it has as an int2vector and as an oidvector, and each has at most one list.
pub fn vectors_are_told()
    ensures int2s { (content : List ℕ) (numbers : List ℤ) → Int2sAreTold content numbers }
    ensures oids { (content oids : List ℕ) → OidsAreTold content oids }
{}
