//! The spots of a document, gathered in the order of the key table.
ghost use Rattle.std.specs.Prelude.{◌≡◌, ◌++◌, [], ◌∷◌, OnOk, IfOk, map, option_map};
ghost use Rattle.toml.specs.Data.{as_table};
ghost use Rattle.toml.specs.View.{view, table_view};
ghost use Rattle.case_rules.specs.Keys.{keys_of};
ghost use Rattle.case_rules.specs.Spots.{column_spots, element_spots, flat_map_from, in_table, include_spots};
ghost use Rattle.case_rules.specs.Spots.{index_keys_spots, index_spots, key_spots, listed, listed_all, spot_view};
ghost use Rattle.case_rules.specs.Spots.{spots_view, spots, unique_spots};

use crate::keys::{Key, Place, place_keys};
use crate::tables::{table_at, tables_at, values_at};
use outside::NoMemory;
use std::alloc::Global;
use toml::{Table, Value};

/// Where a rule is asked.
#[derive(Clone, Copy)]
pub enum Spot<'a> {
    /// A table as a whole, with its place.
    Whole(Place, &'a Table),
    /// A listed key of a table, whether it is there or not, with the table's place.
    Listed(Place, Key, &'a Table),
    /// An element of the array at a key, with its number and the table's place.
    Element(Place, Key, usize, &'a Value),
}

#[tactic(auto, unfolding(crate::specs::Spots::spots_view), using(crate::proofs::Walk::spots_view_laws))]
fn add<'a>(spots: &mut Vec<Spot<'a>>, spot: Spot<'a>) -> Result<(), NoMemory>
    ensures { OnOk result (spots_view spots.new.items ≡ spots_view spots.old.items ++ spot_view spot.entry ∷ []) }
{
    spots.push(spot)?;
    Ok(())
}

fn add_keys<'a>(
    spots: &mut Vec<Spot<'a>>,
    place: Place,
    keys: &[Key],
    table: &'a Table,
) -> Result<(), NoMemory>
    ensures { OnOk result (spots_view spots.new.items
        ≡ spots_view spots.old.items ++ listed_all place (table_view table.now) keys.now) }
{
    for key in keys {
        add(spots, Spot::Listed(place, *key, table))?;
    }
    Ok(())
}

// A table, if it is there, and its keys.
#[tactic(auto, unfolding(crate::specs::Spots::in_table))]
fn add_table<'a>(
    spots: &mut Vec<Spot<'a>>,
    place: Place,
    table: Option<&'a Table>,
) -> Result<(), NoMemory>
    ensures { OnOk result (spots_view spots.new.items
        ≡ spots_view spots.old.items ++ in_table place (option_map (λ t. table_view t.now) table.entry)) }
{
    if let Some(table) = table {
        add(spots, Spot::Whole(place, table))?;
        add_keys(spots, place, place_keys(place), table)?;
    }
    Ok(())
}

fn add_column<'a>(spots: &mut Vec<Spot<'a>>, k: usize, column: &'a Value) -> Result<(), NoMemory>
    ensures { OnOk result (spots_view spots.new.items
        ≡ spots_view spots.old.items ++ column_spots k (view column.now)) }
{
    add_table(spots, Place::Column(k), column.as_table())
}

fn add_columns<'a>(spots: &mut Vec<Spot<'a>>, columns: &'a [Value]) -> Result<(), NoMemory>
    ensures { OnOk result (spots_view spots.new.items
        ≡ spots_view spots.old.items ++ flat_map_from column_spots 0 (map view columns.now)) }
{
    for (k, column) in columns.iter().enumerate() {
        add_column(spots, k, column)?;
    }
    Ok(())
}

fn add_index_key<'a>(
    spots: &mut Vec<Spot<'a>>,
    k: usize,
    j: usize,
    key: &'a Value,
) -> Result<(), NoMemory>
    ensures { OnOk result (spots_view spots.new.items ≡ spots_view spots.old.items ++ key_spots k j (view key.now)) }
{
    add_table(spots, Place::IndexKey(k, j), key.as_table())
}

fn add_index_keys<'a>(
    spots: &mut Vec<Spot<'a>>,
    k: usize,
    keys: &'a [Value],
) -> Result<(), NoMemory>
    ensures { OnOk result (spots_view spots.new.items
        ≡ spots_view spots.old.items ++ flat_map_from (key_spots k) 0 (map view keys.now)) }
{
    for (j, key) in keys.iter().enumerate() {
        add_index_key(spots, k, j, key)?;
    }
    Ok(())
}

fn add_keys_of_index<'a>(
    spots: &mut Vec<Spot<'a>>,
    k: usize,
    index: Option<&'a Table>,
) -> Result<(), NoMemory>
    ensures { OnOk result (spots_view spots.new.items
        ≡ spots_view spots.old.items ++ index_keys_spots k (option_map (λ t. table_view t.now) index.entry)) }
{
    match index {
        Some(table) => add_index_keys(spots, k, tables_at(table, "key")),
        None => Ok(()),
    }
}

fn add_elements<'a>(
    spots: &mut Vec<Spot<'a>>,
    place: Place,
    key: Key,
    values: &'a [Value],
) -> Result<(), NoMemory>
    ensures { OnOk result (spots_view spots.new.items
        ≡ spots_view spots.old.items ++ flat_map_from (element_spots place key) 0 (map view values.now)) }
{
    for (j, value) in values.iter().enumerate() {
        add(spots, Spot::Element(place, key, j, value))?;
    }
    Ok(())
}

fn add_included<'a>(
    spots: &mut Vec<Spot<'a>>,
    k: usize,
    index: Option<&'a Table>,
) -> Result<(), NoMemory>
    ensures { OnOk result (spots_view spots.new.items
        ≡ spots_view spots.old.items ++ include_spots k (option_map (λ t. table_view t.now) index.entry)) }
{
    if let Some(table) = index {
        let place = Place::Index(k);
        add(spots, Spot::Listed(place, Key::IndexInclude, table))?;
        add_elements(spots, place, Key::IndexInclude, values_at(table, "include"))?;
    }
    Ok(())
}

fn add_unique<'a>(
    spots: &mut Vec<Spot<'a>>,
    k: usize,
    index: Option<&'a Table>,
) -> Result<(), NoMemory>
    ensures { OnOk result (spots_view spots.new.items
        ≡ spots_view spots.old.items ++ unique_spots k (option_map (λ t. table_view t.now) index.entry)) }
{
    if let Some(table) = index {
        let place = Place::Index(k);
        add(spots, Spot::Listed(place, Key::IndexUnique, table))?;
        add(
            spots,
            Spot::Listed(place, Key::IndexNullsNotDistinct, table),
        )?;
    }
    Ok(())
}

fn add_index<'a>(spots: &mut Vec<Spot<'a>>, k: usize, index: &'a Value) -> Result<(), NoMemory>
    ensures { OnOk result (spots_view spots.new.items ≡ spots_view spots.old.items ++ index_spots k (view index.now)) }
{
    let table = index.as_table();
    add_table(spots, Place::Index(k), table)?;
    add_keys_of_index(spots, k, table)?;
    add_included(spots, k, table)?;
    add_unique(spots, k, table)
}

fn add_indexes<'a>(spots: &mut Vec<Spot<'a>>, indexes: &'a [Value]) -> Result<(), NoMemory>
    ensures { OnOk result (spots_view spots.new.items
        ≡ spots_view spots.old.items ++ flat_map_from index_spots 0 (map view indexes.now)) }
{
    for (k, index) in indexes.iter().enumerate() {
        add_index(spots, k, index)?;
    }
    Ok(())
}

/// The spots of a document.
#[tactic(auto, unfolding(crate::specs::Spots::spots, crate::specs::Spots::spots_view))]
pub fn all_spots<'a>(alloc: Global, top: &'a Table) -> Result<Vec<Spot<'a>>, NoMemory>
    ensures { IfOk result (λ v. spots_view v.items ≡ spots (table_view top.now)) }
{
    let mut spots = Vec::new(alloc);
    add(&mut spots, Spot::Whole(Place::Top, top))?;
    add(
        &mut spots,
        Spot::Listed(Place::Top, Key::SegmentBlocks, top),
    )?;
    add(&mut spots, Spot::Listed(Place::Top, Key::ClusterTable, top))?;
    add_table(&mut spots, Place::Cluster, table_at(top, "cluster"))?;
    add(&mut spots, Spot::Listed(Place::Top, Key::HeapTable, top))?;
    add_table(&mut spots, Place::Heap, table_at(top, "heap"))?;
    add(&mut spots, Spot::Listed(Place::Top, Key::Columns, top))?;
    add_columns(&mut spots, tables_at(top, "column"))?;
    add(&mut spots, Spot::Listed(Place::Top, Key::Indexes, top))?;
    add_indexes(&mut spots, tables_at(top, "index"))?;
    Ok(spots)
}
