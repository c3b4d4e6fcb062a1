//! How a refusal names a spot.
ghost use Rattle.std.specs.Prelude.{◌≡◌, ◌++◌, IfOk, OnOk};
ghost use Rattle.case_rules.specs.Keys.{bracketed, element_text, key_text, numbered_text, place_text};
ghost use Rattle.case_rules.specs.Spots.{spot_text, spot_view};

use crate::keys::{Key, Place, row};
use crate::spots::Spot;
use key_orders::Octets;
use outside::NoMemory;
use std::alloc::Global;

fn push_text(out: &mut Octets, text: &str) -> Result<(), NoMemory>
    ensures { OnOk result (out.new ≡ out.old ++ text.now) }
{
    out.push_slice(text.as_bytes())
}

fn push_bracketed(out: &mut Octets, n: usize) -> Result<(), NoMemory>
    ensures { OnOk result (out.new ≡ out.old ++ bracketed n) }
{
    push_text(out, "[")?;
    out.push_decimal(n as u64)?;
    push_text(out, "]")
}

fn push_numbered(out: &mut Octets, word: &str, n: usize) -> Result<(), NoMemory>
    ensures { OnOk result (out.new ≡ out.old ++ numbered_text word.now n) }
{
    push_text(out, word)?;
    push_bracketed(out, n)
}

#[tactic(auto, unfolding(crate::specs::Keys::place_text))]
fn push_place(out: &mut Octets, place: Place) -> Result<(), NoMemory>
    ensures { OnOk result (out.new ≡ out.old ++ place_text place) }
{
    match place {
        Place::Top => push_text(out, "top"),
        Place::Cluster => push_text(out, "cluster"),
        Place::Heap => push_text(out, "heap"),
        Place::Column(k) => push_numbered(out, "column", k),
        Place::Index(k) => push_numbered(out, "index", k),
        Place::IndexKey(k, j) => {
            push_numbered(out, "index", k)?;
            push_text(out, ".")?;
            push_numbered(out, "key", j)
        }
    }
}

#[tactic(auto, unfolding(crate::specs::Keys::key_text))]
fn push_key(out: &mut Octets, place: Place, key: Key) -> Result<(), NoMemory>
    ensures { OnOk result (out.new ≡ out.old ++ key_text place key) }
{
    match place {
        Place::Top => push_text(out, row(key).word),
        _ => {
            push_place(out, place)?;
            push_text(out, ".")?;
            push_text(out, row(key).word)
        }
    }
}

fn push_element(out: &mut Octets, place: Place, key: Key, j: usize) -> Result<(), NoMemory>
    ensures { OnOk result (out.new ≡ out.old ++ element_text place key j) }
{
    push_key(out, place, key)?;
    push_bracketed(out, j)
}

#[tactic(auto, unfolding(crate::specs::Spots::spot_text))]
fn push_spot(out: &mut Octets, spot: Spot<'_>) -> Result<(), NoMemory>
    ensures { OnOk result (out.new ≡ out.old ++ spot_text (spot_view spot.entry)) }
{
    match spot {
        Spot::Whole(place, _) => push_place(out, place),
        Spot::Listed(place, key, _) => push_key(out, place, key),
        Spot::Element(place, key, j, _) => push_element(out, place, key, j),
    }
}

/// How a refusal names a spot: a table as `column[0]`, a key as `column[0].type`, an element of an
/// array as `index[0].include[0]`.
pub fn spot_text(alloc: Global, spot: Spot<'_>) -> Result<Octets, NoMemory>
    ensures { IfOk result (λ text. text ≡ spot_text (spot_view spot.entry)) }
{
    let mut out = Octets::new(alloc);
    push_spot(&mut out, spot)?;
    Ok(out)
}
