// The totals that a recording leaves.
ghost use Rattle.std.specs.Prelude.{◌≡◌, ◌<◌, ◌&&◌, ltb, length};
ghost use Rattle.chip.specs.Kinds.{outputs_of};
ghost use Rattle.script.specs.Totals.{recorded_bus, total_at, totals_code, totals_after};

use crate::stamped::parse_entry;
use bus::{Bus, Judged};
use chip::Chip;
use refusals::Reason;
use replay::step_judged;
use text::line_end;

// The bus after all lines of a log, the last one too.
fn recorded(log: &[u8]) -> Bus
    ensures { result ≡ recorded_bus log.now }
{
    let mut judged = Judged::new(bus::empty());
    let mut clock = None;
    let mut from = 0;
    // no plainer over `split`, which gives an empty piece behind the last line feed, where no line is
    while from < log.len() {
        let end = line_end(log, from);
        let r = step_judged(judged, clock, parse_entry(&log[from..end]));
        judged.bus = r.reply.bus;
        clock = r.clock;
        from = end + 1;
    }
    judged.bus
}

// Whether a device at a position has an output.
fn is_there(count: u8, position: usize, chip: Chip, out: usize) -> bool
    ensures { result ≡ (ltb position count && ltb out (outputs_of chip)) }
{
    position < usize::from(count) && out < usize::from(chip.outputs())
}

// Number k of the row: of the device at position k / 32 and its output k % 32 / 2 the lit total where k is even, else the unlit one.
fn total_at(bus: &Bus, k: usize) -> u64
    requires { k < 256 }
    ensures { result ≡ total_at bus.now k }
{
    if !is_there(bus.count, k / 32, bus.devices[k / 32].chip, k % 32 / 2) {
        return 0;
    }
    if k % 2 == 0 {
        bus.lit[k / 2]
    } else {
        bus.unlit[k / 2]
    }
}

// Replays a recording from an empty bus and gives the totals at its end: of the device at position i and its output j the lit total
// at 32 * i + 2 * j and the unlit one behind it.
#[tactic(auto, unfolding(crate::specs::Totals::totals_after))]
pub fn totals_log(log: &[u8], row: &mut [u64]) -> u64
    ensures value { result ≡ totals_code (length row.old) }
    ensures row_after { row.new ≡ totals_after log.now row.old }
{
    if row.len() < 256 {
        return u64::from(Reason::NoRoom);
    }
    let bus = recorded(log);
    for (k, total) in row[..256].iter_mut().enumerate() {
        *total = total_at(&bus, k);
    }
    0
}
