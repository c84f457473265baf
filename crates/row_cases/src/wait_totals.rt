// Waits of one record by value, by the totals of one of its outputs.
ghost use Rattle.std.specs.Prelude.{◌<◌};

use crate::records;
use cases::line::Answer;
use chip::Chip;
use device::Device;
use std::io;

// The longest wait.
const LONGEST: u64 = 1 << 48;

// The largest that both totals are together.
const LIMIT: u64 = 1 << 56;

// An output with its totals, and a wait of so many ticks or steps.
fn wait(
    rt: &impl Print,
    device: Device,
    out: usize,
    lit: u64,
    unlit: u64,
    ticks: u64,
) -> io::Result<()>
    requires { out < 16 }
{
    let r = records::with_totals(records::of(device), out, lit, unlit);
    let waited = row::wait_of(r, ticks);
    let after = waited.unwrap_or(r);
    let answer = Answer::from(waited.map(|_| 0));
    print!(rt; ", output {out} lit={lit} unlit={unlit}, wait {ticks}: {answer}")?;
    let lit = after.lit[out];
    let unlit = after.unlit[out];
    println!(rt; " lit={lit} unlit={unlit}")
}

fn asleep(rt: &impl Print, out: usize, lit: u64, unlit: u64, ticks: u64) -> io::Result<()>
    requires { out < 16 }
{
    print!(rt; "9635 asleep")?;
    let device = Device::fresh(Chip::Pca9635, 16);
    wait(rt, device, out, lit, unlit, ticks)
}

fn limits(rt: &impl Print) -> io::Result<()> {
    asleep(rt, 0, LIMIT, 0, 0)?;
    asleep(rt, 0, LIMIT, 0, 1)?;
    asleep(rt, 0, LIMIT - 1, 0, 1)?;
    asleep(rt, 0, LIMIT, 1, 0)?;
    asleep(rt, 0, u64::MAX, 1, 0)?;
    asleep(rt, 15, 0, LIMIT, 1)?;
    asleep(rt, 0, 0, 0, LONGEST)?;
    asleep(rt, 0, 0, 0, LONGEST + 1)
}

// A PCA9634 has 8 outputs.
fn fewer_outputs(rt: &impl Print) -> io::Result<()> {
    let device = Device::fresh(Chip::Pca9634, 16);
    for out in [7, 8] {
        print!(rt; "9634 asleep")?;
        wait(rt, device, out, u64::MAX, 1, 1)?;
    }
    Ok(())
}

// Output 0 is held lit, and output 1 is not.
fn lit_and_not(rt: &impl Print, label: &str, device: Device) -> io::Result<()> {
    for out in [0, 1] {
        rt.print(label)?;
        wait(rt, device, out, 3, 4, 7)?;
    }
    Ok(())
}

pub fn run(rt: &impl Print) -> io::Result<()> {
    let mut driver = Device::fresh(Chip::Pca9635, 16);
    driver.effective[20] = 0x01;
    let mut blinker = Device::fresh(Chip::Pca9531, 2);
    blinker.written[5] = 0x01;
    limits(rt)?;
    fewer_outputs(rt)?;
    lit_and_not(rt, "9635 asleep, LEDOUT0 01 in effect", driver)?;
    lit_and_not(rt, "9531 LS0 01", blinker)
}
