// Events on a row of records with totals: no event changes one, and those that are too large are refused.
ghost use Rattle.std.specs.Prelude.{◌≤◌, ◌<◌};

use crate::{records, rows};
use bus::SignalEvent;
use chip::Chip;
use device::Device;
use row::Rowed;
use std::{array, fmt, io};
use totals::Record;

const LIMIT: u64 = 1 << 56;

fn numbers_from(first: u64) -> [u64; 16]
    requires { first ≤ 400 }
{
    array::from_fn(|i| first + i as u64)
}

fn numbered(device: Device, lit: u64, unlit: u64) -> Record
    requires { (lit ≤ 400) × (unlit ≤ 400) }
{
    Record {
        device,
        lit: numbers_from(lit),
        unlit: numbers_from(unlit),
    }
}

// A PCA9635 and a PCA9531 whose control bytes are not those of a fresh one, then fresh ones.
fn row() -> [Record; 9] {
    let mut driver = Device::fresh(Chip::Pca9635, 16);
    driver.control = 0x82;
    let mut blinker = Device::fresh(Chip::Pca9531, 2);
    blinker.control = 0x11;
    let mut records = [records::of(Device::fresh(Chip::Pca9635, 16)); 9];
    records[0] = numbered(driver, 100, 200);
    records[1] = numbered(blinker, 300, 400);
    records
}

// With a space before each.
#[derive(Clone, Copy)]
struct Numbers<'a>(&'a [u64]);

impl fmt::Display for Numbers<'_> {
    fn fmt<W: fmt::Write>(&self, f: &mut fmt::Formatter<W>) -> fmt::Result {
        for number in self.0 {
            write!(f, " {number}")?;
        }
        Ok(())
    }
}

// The first two records.
fn shown(rt: &impl Print, r: Rowed) -> io::Result<()> {
    for (i, record) in r.records[..2].iter().enumerate() {
        print!(rt; "record {i} control={:02x}", record.device.control)?;
        print!(rt; ", lit{}", Numbers(&record.lit))?;
        println!(rt; ", unlit{}", Numbers(&record.unlit))?;
    }
    Ok(())
}

// An event on the first n records, where an output of record 1 has these totals.
fn with_totals(
    rt: &impl Print,
    out: usize,
    lit: u64,
    unlit: u64,
    n: usize,
    event: SignalEvent,
) -> io::Result<Rowed>
    requires { out < 16 }
{
    let mut records = row();
    records[1] = records::with_totals(records[1], out, lit, unlit);
    print!(rt; "output {out} of record 1 lit={lit} unlit={unlit}, ")?;
    rows::event(rt, rows::idle(records), n, event)
}

pub fn run(rt: &impl Print) -> io::Result<()> {
    let start = SignalEvent::Start;
    print!(rt; "with totals, ")?;
    let after = rows::event(rt, rows::idle(row()), 2, start)?;
    shown(rt, after)?;
    with_totals(rt, 0, LIMIT, 0, 2, start)?;
    let after = with_totals(rt, 0, LIMIT, 1, 2, start)?;
    shown(rt, after)?;
    with_totals(rt, 0, LIMIT, 1, 2, SignalEvent::Put(32))?;
    with_totals(rt, 0, LIMIT, 1, 9, start)?;
    with_totals(rt, 0, LIMIT, 1, 1, start)?;
    with_totals(rt, 7, u64::MAX, 1, 2, start)?;
    with_totals(rt, 8, u64::MAX, 1, 2, start)?;
    Ok(())
}
