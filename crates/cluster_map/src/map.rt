//! A map, as its bytes say it.
ghost use Rattle.std.specs.Prelude.{◌≡◌, ◌+◌, ◌*◌, ◌≤◌, ℕ, [], ◌∷◌, ◌++◌, List, Ok, Result, Some, length, IfSome};
ghost use Rattle.cluster_map.specs.Map.{SaysTrue, as_list, entries_of, file_in, first_entries, map_said};
ghost use Rattle.cluster_map.specs.Map.{places_by, repeated_after, entry_at, file_number};
ghost use Rattle.cluster_map.specs.declared.entry.MapEntry.{MapEntry as Entry};
ghost use Rattle.cluster_map.specs.declared.fault.MapFault.{MapFault as Fault};

use crate::entry::{FileMap, MOST_PLACES, MapEntry};
use crate::fault::MapFault;
use cluster_control::has_crc_behind;
use page_layout::u32_at;

// The number with which a map begins (`RELMAPPER_FILEMAGIC`).
const MAGIC: u32 = 0x0059_2717;

// Where the entries begin, and how many bytes each has.
const FIRST_PLACE: usize = 8;

const ENTRY_BYTES: usize = 8;

// How many places for entries a map of this length has.
fn places_by(length: usize) -> Option<u32>
    ensures places { result ≡ places_by length }
    ensures fits { IfSome result (λ places. 8 + 8 * places + 4 ≤ length) }
    ensures few { IfSome result (λ places. places ≤ 64) }
{
    match length {
        512 => Some(62),
        524 => Some(64),
        _ => None,
    }
}

// The file of an oid, by the first entry that has it.
fn file_in(entries: &[MapEntry], oid: u32) -> Option<u32>
    ensures { result ≡ file_in entries.now oid }
{
    entries
        .iter()
        .find(|entry| entry.oid == oid)
        .map(|entry| entry.file)
}

// Entry k of a map.
fn entry_at(bytes: &[u8], k: usize) -> MapEntry
    requires { 16 + 8 * k ≤ length bytes.now }
    ensures { result ≡ entry_at bytes.now k }
{
    let at = FIRST_PLACE + ENTRY_BYTES * k;
    MapEntry {
        oid: u32_at(bytes, at),
        file: u32_at(bytes, at + 4),
    }
}

impl FileMap {
    // The first entries of a map.
    fn of_first(bytes: &[u8], count: u32) -> FileMap
        requires few { count ≤ 64 }
        requires long { 8 + 8 * count ≤ length bytes.now }
        ensures { entries_of result ≡ first_entries bytes.now count }
    {
        let count = count as usize;
        let mut entries = [MapEntry { oid: 0, file: 0 }; MOST_PLACES];
        for k in 0..count {
            entries[k] = entry_at(bytes, k);
        }
        FileMap { entries, count }
    }

    // The oid of the first entry that one before it has too.
    fn repeated(&self) -> Option<u32>
        ensures { result ≡ repeated_after [] (entries_of self.now) }
    {
        let entries = &self.entries[..self.count];
        for k in 0..entries.len() {
            let oid = entries[k].oid;
            match file_in(&entries[..k], oid) {
                Some(_) => return Some(oid),
                None => {}
            }
        }
        None
    }

    /// The file of a relation, if the map has it.
    pub fn file(&self, oid: u32) -> Option<u32>
        ensures { result ≡ file_in (entries_of self.now) oid }
    {
        file_in(&self.entries[..self.count], oid)
    }

    /// The number of a relation's file: the `relfilenode` that pg_class gives it, or where that is 0 the map's.
    pub fn file_number(&self, relfilenode: u32, oid: u32) -> Option<u32>
        ensures { result ≡ file_number relfilenode (entries_of self.now) oid }
    {
        if relfilenode == 0 {
            self.file(oid)
        } else {
            Some(relfilenode)
        }
    }
}

/// What the bytes of a map say: a magic number (4 bytes), a count (4), and places for entries of an oid and the number
/// of a file (4 and 4), 62 of them in 512 bytes and 64 in 524, with the CRC-32C of all bytes before it behind them.
///
/// Refused, in this order, are: another length (`WrongLength`); another magic number than 0x00592717 (`WrongMagic`);
/// a count of more entries than there are places (`WrongCount`); a wrong CRC (`WrongCrc`); and an oid that is named
/// twice (`NamedTwice`, of the first entry that repeats one).
pub fn read_map(bytes: &[u8]) -> Result<FileMap, MapFault>
    ensures { as_list result ≡ map_said bytes.now }
{
    let Some(places) = places_by(bytes.len()) else {
        return Err(MapFault::WrongLength);
    };
    if u32_at(bytes, 0) != MAGIC {
        return Err(MapFault::WrongMagic);
    }
    let count = u32_at(bytes, 4);
    if count > places {
        return Err(MapFault::WrongCount(count));
    }
    if !has_crc_behind(bytes, FIRST_PLACE + ENTRY_BYTES * places as usize) {
        return Err(MapFault::WrongCrc);
    }
    let map = FileMap::of_first(bytes, count);
    match map.repeated() {
        Some(oid) => Err(MapFault::NamedTwice(oid)),
        None => Ok(map),
    }
}

/// What `read_map` tells of bytes is true by `SaysTrue`, in the words of each answer, and nothing else is. Of a map
/// that is told, each entry's file is the one that its oid has.
pub fn maps_are_told_exactly()
    ensures is { (bytes : List ℕ) → SaysTrue bytes (map_said bytes) }
    ensures alone { (bytes : List ℕ) (other : Result (List Entry) Fault) → SaysTrue bytes other
        → other ≡ map_said bytes }
    ensures found { (bytes : List ℕ) (before after : List Entry) (entry : Entry)
        → map_said bytes ≡ Ok (before ++ entry ∷ after)
        → file_in (before ++ entry ∷ after) entry.oid ≡ Some entry.file }
{}
