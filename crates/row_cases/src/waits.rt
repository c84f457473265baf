// Waits of one lent record, by its count.
use crate::records;
use cases::line::Answer;
use chip::Chip;
use device::Device;
use std::io;

const LIMIT: u64 = 1 << 48;

fn wait(rt: &impl Print, device: Device, ticks: u64) -> io::Result<()> {
    let mut r = records::of(device);
    let answer = Answer::from(row::wait(&mut r, ticks));
    println!(rt; ", wait {ticks}: {answer} count={}", r.device.count)
}

pub fn run(rt: &impl Print) -> io::Result<()> {
    print!(rt; "9635 asleep")?;
    wait(rt, Device::fresh(Chip::Pca9635, 16), 5)?;
    for (count, ticks) in [(0, 5), (LIMIT - 5, 5), (LIMIT, 1), (LIMIT + 1, 1)] {
        let mut device = Device::fresh(Chip::Pca9531, 2);
        device.count = count;
        print!(rt; "9531 count={count}")?;
        wait(rt, device, ticks)?;
    }
    Ok(())
}
