// What making room keeps, and the freeing of all else.
ghost use Rattle.std.specs.Prelude.{◌≡◌, true};
ghost use Rattle.refusals.specs.Reasons.{code_in};
ghost use Rattle.refusals.specs.Refusals.{code_of};
ghost use Rattle.store.specs.Kept.{is_listed, all_held, is_kept, freed_by};
ghost use Rattle.store.specs.Layout.{store_ok, saved_of, is_freed, with_only};
ghost use Rattle.store.specs.Calls.{bytes, keep_refusals};
ghost use Rattle.store.specs.laws.Only.{kept_of, GreatestOf};

use crate::place::{Place, WIDTH};
use crate::places::{PLACES, Places, put};
use refusals::Reason;

// Whether a version is listed, and whether all that are listed are held.
fn is_listed(list: &[u64], table: u64, version: u64) -> bool
    ensures { result ≡ is_listed list.now table version }
{
    list.as_chunks().0.contains(&[table, version])
}

fn all_held(places: Places, list: &[u64]) -> bool
    ensures { result ≡ all_held list.now (saved_of places.entry.bytes.now) }
{
    list.as_chunks::<2>()
        .0
        .iter()
        .all(|&[table, version]| places.holds(table, version))
}

// Whether a list is one of versions that are held.
pub fn list_check(places: Places, list: &[u64]) -> Result<(), Reason>
    ensures { code_in result ≡ code_of (keep_refusals bytes places.entry.bytes.now list.now) }
{
    if list.len() % 2 != 0 {
        return Err(Reason::Malformed);
    }
    if !all_held(places, list) {
        return Err(Reason::NoVersion);
    }
    Ok(())
}

// The greatest version of each table, or 0.
pub fn newest_of_each(places: Places) -> [u64; 64]
    ensures { GreatestOf places.entry.bytes.now result }
{
    let mut greatest = [0; 64];
    for bytes in places.places() {
        let place = Place { bytes };
        let table = usize::from(place.table());
        greatest[table] = place.version().max(greatest[table]);
    }
    greatest
}

// Whether a place holds a version that is neither its table's greatest nor listed.
fn is_freed(place: Place, list: &[u64], greatest: &[u64; 64]) -> bool
    ensures { result ≡ is_freed (kept_of list.now greatest.now) place.entry.bytes.now }
{
    let table = place.table();
    let version = place.version();
    version != 0
        && greatest.get(usize::from(table)) != Some(&version)
        && !is_listed(list, u64::from(table), version)
}

// Frees such places, and gives their number.
// By index: of a loop over `as_chunks_mut` a proof does not know what it leaves.
pub fn free_others(store: &mut [u8], list: &[u64], greatest: &[u64; 64]) -> u64
    requires { (store_ok store.old ≡ true) × GreatestOf store.old greatest.now }
    ensures store_after { store.new ≡ with_only (is_kept list.now (saved_of store.old)) store.old }
    ensures value { result ≡ freed_by list.now (saved_of store.old) }
{
    let mut freed = 0;
    for i in 0..PLACES {
        let place = Place {
            bytes: &store.as_chunks().0[i],
        };
        if is_freed(place, list, greatest) {
            put(store, i, &[0; WIDTH]);
            freed += 1;
        }
    }
    freed
}
