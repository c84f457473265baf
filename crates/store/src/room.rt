// The next version of a table: the free place that it goes to, and how it is written there.
ghost use Rattle.std.specs.Prelude.{◌≡◌, ◌<◌, length, IfOk, is_none};
ghost use Rattle.std.specs.Option.{ForSome};
ghost use Rattle.basics.specs.Parts.{with_part};
ghost use Rattle.refusals.specs.Reasons.{code_in};
ghost use Rattle.refusals.specs.Refusals.{code_of};
ghost use Rattle.store.specs.Saved.{saved};
ghost use Rattle.store.specs.Layout.{store_size, place_of};
ghost use Rattle.store.specs.Calls.{bytes, put_refusals};
ghost use Rattle.store.specs.laws.Judged.{IsNext};

use crate::place::{VERSION_LIMIT, bytes_of};
use crate::places::{Places, put};
use refusals::Reason;
use setting::Setting;

#[derive(Clone, Copy)]
pub struct Next {
    pub place: usize,
    pub table: u8,
    pub version: u64,
    pub setting: Setting,
}

// The next version of the table, with such a setting. Without one there is no version to take it from, or no such table.
#[tactic(auto, using(crate::proofs::laws::Judged::put_far, crate::proofs::laws::Judged::put_missing, crate::proofs::laws::Judged::put_full, crate::proofs::laws::Judged::put_clear))]
pub fn next_version(places: Places, table: u64, setting: Option<Setting>) -> Result<Next, Reason>
    requires { ForSome setting (λ s. table < 64) }
    ensures code { code_in result ≡ code_of (put_refusals bytes places.entry.bytes.now table (is_none setting)) }
    ensures next { IfOk result (IsNext places.entry.bytes.now table setting) }
{
    let newest = places.newest(table);
    if VERSION_LIMIT <= newest {
        return Err(Reason::PastLimit);
    }
    let setting = setting.ok_or(Reason::NoVersion)?;
    let place = places.free().ok_or(Reason::StoreFull)?;
    Ok(Next {
        place,
        table: table as u8,
        version: newest + 1,
        setting,
    })
}

// Writes it to its place, and gives its number.
pub fn put_next(store: &mut [u8], next: Next) -> u64
    requires { (length store.old ≡ store_size) × (next.place < 256) }
    ensures value { result ≡ next.version }
    ensures store_after { store.new ≡ with_part 256 40 next.place (place_of (saved next.table next.version next.setting)) store.old }
{
    put(
        store,
        next.place,
        &bytes_of(next.table, next.version, next.setting),
    );
    next.version
}
