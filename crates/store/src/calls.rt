// The calls on a lent store: each with its value, or the reason for which it is refused.
ghost use Rattle.std.specs.Prelude.{◌≡◌};
ghost use Rattle.refusals.specs.Reasons.{code_in};
ghost use Rattle.store.specs.Calls.{replied, answered, bytes, fresh_reply, save_reply, return_reply, read_reply, keep_reply};

use crate::kept::{free_others, list_check, newest_of_each};
use crate::places::{Places, SIZE};
use crate::room::{next_version, put_next};
use refusals::Reason;
use setting::Setting;
use setting::proved_callers::write_setting;

// Makes a fresh store of a buffer, whatever it holds.
pub fn fresh(store: &mut [u8]) -> Result<(), Reason>
    ensures { replied (code_in result) 0 store.new ≡ fresh_reply store.old }
{
    if store.len() != SIZE {
        return Err(Reason::Malformed);
    }
    store.fill(0);
    Ok(())
}

// Saves the setting of a text as the next version of a table.
pub fn save(store: &mut [u8], table: u64, text: &[u8]) -> Result<u64, Reason>
    ensures { answered result store.new ≡ save_reply bytes store.old table text.now }
{
    let setting = Setting::read(text)?;
    let places = Places::of(&store[..])?;
    let next = next_version(places, table, (table < 64).then_some(setting))?;
    Ok(put_next(store, next))
}

// Saves an earlier version of a table as its next one.
pub fn return_to(store: &mut [u8], table: u64, version: u64) -> Result<u64, Reason>
    ensures { answered result store.new ≡ return_reply bytes store.old table version }
{
    let places = Places::of(&store[..])?;
    let again = next_version(places, table, places.setting(table, version))?;
    Ok(put_next(store, again))
}

// Writes the text of a version to the start of a buffer.
pub fn read(store: &[u8], table: u64, version: u64, buffer: &mut [u8]) -> Result<u64, Reason>
    ensures { answered result buffer.new ≡ read_reply bytes store.now table version buffer.old }
{
    let places = Places::of(store)?;
    let setting = places.setting(table, version).ok_or(Reason::NoVersion)?;
    let mut text = [0; 272];
    let n = write_setting(setting, &mut text);
    if buffer.len() < n {
        return Err(Reason::NoRoom);
    }
    buffer[..n].copy_from_slice(&text[..n]);
    Ok(n as u64)
}

// Makes room: frees every version but the newest of each table and those that a list names, table then version.
pub fn keep(store: &mut [u8], list: &[u64]) -> Result<u64, Reason>
    ensures { answered result store.new ≡ keep_reply bytes store.old list.now }
{
    let places = Places::of(&store[..])?;
    list_check(places, list)?;
    let greatest = newest_of_each(places);
    Ok(free_others(store, list, &greatest))
}
