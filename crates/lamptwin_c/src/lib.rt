// The static library for C and Rust: what library/include/lamptwin.h declares. A slice arrives as a pointer and a length.
#![tactic(auto)]

ghost use Rattle.std.specs.Prelude.{◌≡◌, length};
ghost use Rattle.text.specs.Lines.{lines_of};
ghost use Rattle.text.specs.Run.{RunsLog};
ghost use Rattle.store.specs.Layout.{store_size};
ghost use Rattle.store.specs.Calls.{replied, bytes, fresh_reply, save_reply, return_reply, read_reply, keep_reply};
ghost use Rattle.refusals.specs.Reasons.{code_in, value_in};
ghost use Rattle.script.specs.Totals.{totals_code, totals_after};
ghost use Rattle.script.specs.Twin.{fresh_state, fresh_replay, twin};

use refusals::Reason;

#[unsafe(no_mangle)]
pub extern "C" fn lamptwin_lines(log: &[u8]) -> usize
    ensures { result ≡ length (lines_of log.now) }
{
    script::lines_in(log)
}

#[unsafe(no_mangle)]
pub extern "C" fn lamptwin_run(log: &[u8], answers: &mut [u8]) -> usize
    ensures { RunsLog twin fresh_state log.now answers.old answers.new result }
{
    script::run_log(log, answers)
}

#[unsafe(no_mangle)]
pub extern "C" fn lamptwin_replay(log: &[u8], answers: &mut [u8]) -> usize
    ensures { RunsLog twin fresh_replay log.now answers.old answers.new result }
{
    script::replay_log(log, answers)
}

#[unsafe(no_mangle)]
pub extern "C" fn lamptwin_totals(log: &[u8], totals: &mut [u64]) -> u64
    ensures value { result ≡ totals_code (length totals.old) }
    ensures totals_after { totals.new ≡ totals_after log.now totals.old }
{
    script::totals_log(log, totals)
}

#[unsafe(no_mangle)]
pub extern "C" fn lamptwin_store_size() -> usize
    ensures { result ≡ store_size }
{
    store::SIZE
}

// Puts a reply's value, 0 where it is refused, and gives its code.
fn put_reply(reply: Result<u64, Reason>, value: &mut u64) -> u64
    ensures code { result ≡ code_in reply }
    ensures value { value.new ≡ value_in reply }
{
    *value = reply.unwrap_or(0);
    reply.map_or_else(u64::from, |_| 0)
}

#[unsafe(no_mangle)]
pub extern "C" fn lamptwin_store_fresh(store: &mut [u8]) -> u64
    ensures { replied result 0 store.new ≡ fresh_reply store.old }
{
    store::fresh(store).map_or_else(u64::from, |()| 0)
}

#[unsafe(no_mangle)]
pub extern "C" fn lamptwin_store_save(
    store: &mut [u8],
    table: u64,
    setting: &[u8],
    value: &mut u64,
) -> u64
    ensures { replied result value.new store.new ≡ save_reply bytes store.old table setting.now }
{
    put_reply(store::save(store, table, setting), value)
}

#[unsafe(no_mangle)]
pub extern "C" fn lamptwin_store_return(
    store: &mut [u8],
    table: u64,
    version: u64,
    value: &mut u64,
) -> u64
    ensures { replied result value.new store.new ≡ return_reply bytes store.old table version }
{
    put_reply(store::return_to(store, table, version), value)
}

#[unsafe(no_mangle)]
pub extern "C" fn lamptwin_store_read(
    store: &[u8],
    table: u64,
    version: u64,
    buffer: &mut [u8],
    value: &mut u64,
) -> u64
    ensures { replied result value.new buffer.new ≡ read_reply bytes store.now table version buffer.old }
{
    put_reply(store::read(store, table, version, buffer), value)
}

#[unsafe(no_mangle)]
pub extern "C" fn lamptwin_store_keep(store: &mut [u8], list: &[u64], value: &mut u64) -> u64
    ensures { replied result value.new store.new ≡ keep_reply bytes store.old list.now }
{
    put_reply(store::keep(store, list), value)
}
