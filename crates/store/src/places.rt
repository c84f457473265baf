// A store of the right shape: what its places hold, and which is free; and one place written.
ghost use Rattle.std.specs.Prelude.{◌≡◌, true, ◌<◌, length, IfOk};
ghost use Rattle.basics.specs.Parts.{with_part};
ghost use Rattle.refusals.specs.Reasons.{code_in};
ghost use Rattle.refusals.specs.Refusals.{code_of};
ghost use Rattle.store.specs.Saved.{newest, found, is_held};
ghost use Rattle.store.specs.Layout.{store_size, store_ok, saved_of, first_free, places_of};
ghost use Rattle.store.specs.Calls.{shape_refusals};

use crate::place::{Place, WIDTH};
use refusals::Reason;
use setting::Setting;

// The places of a store, and its bytes.
pub const PLACES: usize = 256;

pub const SIZE: usize = WIDTH * PLACES;

#[derive(Clone, Copy)]
pub struct Places<'a> {
    pub bytes: &'a [u8],
    ghost sound: { store_ok bytes.now ≡ true },
}

// Whether a store is of the right shape.
#[tactic(auto, using(crate::proofs::laws::Layout::wrong_size))]
fn is_sound(store: &[u8]) -> bool
    ensures { result ≡ store_ok store.now }
{
    store.len() == SIZE
        && store
            .as_chunks()
            .0
            .iter()
            .all(|bytes| Place { bytes }.is_ok())
}

impl<'a> Places<'a> {
    #[tactic(auto, unfolding(refusals::specs::Refusals::code_of, refusals::specs::Refusals::least))]
    pub fn of(store: &'a [u8]) -> Result<Places<'a>, Reason>
        ensures code { code_in result ≡ code_of (shape_refusals store.now) }
        ensures bytes { IfOk result (λ places. places.bytes.now ≡ store.now) }
    {
        if !is_sound(store) {
            return Err(Reason::Malformed);
        }
        Ok(Places { bytes: store })
    }

    // The range takes nothing away: by it the compiler knows how many places there are.
    pub fn places(self) -> &'a [[u8; WIDTH]]
        ensures { result.now ≡ places_of self.entry.bytes.now }
    {
        let bytes = self.bytes;
        bytes[..SIZE].as_chunks().0
    }

    // The greatest version of a table, or 0.
    pub fn newest(self, table: u64) -> u64
        ensures { result ≡ newest table (saved_of self.entry.bytes.now) }
    {
        self.places()
            .iter()
            .map(|bytes| Place { bytes }.version_of(table))
            .max()
            .unwrap_or(0)
    }

    // The first free place.
    pub fn free(self) -> Option<usize>
        ensures { result ≡ first_free self.entry.bytes.now }
    {
        self.places()
            .iter()
            .position(|bytes| Place { bytes }.is_free())
    }

    pub fn holds(self, table: u64, version: u64) -> bool
        ensures { result ≡ is_held table version (saved_of self.entry.bytes.now) }
    {
        self.places()
            .iter()
            .any(|bytes| Place { bytes }.is_at(table, version))
    }

    // The setting of a version of the table: the first, where there are several.
    pub fn setting(self, table: u64, version: u64) -> Option<Setting>
        ensures { result ≡ found table version (saved_of self.entry.bytes.now) }
    {
        self.places()
            .iter()
            .find(|bytes| Place { bytes }.is_at(table, version))
            .map(|bytes| Place { bytes }.setting())
    }
}

// Writes place i, and no other byte.
pub fn put(store: &mut [u8], i: usize, bytes: &[u8; WIDTH])
    requires { (length store.old ≡ store_size) × (i < 256) }
    ensures { store.new ≡ with_part 256 40 i bytes.now store.old }
{
    let at = WIDTH * i;
    store[at..at + WIDTH].copy_from_slice(bytes);
}
