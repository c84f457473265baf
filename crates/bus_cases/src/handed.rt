// A record and a bus that no event makes.
ghost use Rattle.std.specs.Prelude.{◌≡◌, ◌<◌, set};
ghost use Rattle.device.specs.Fields.{with_count, with_written};
ghost use Rattle.device.specs.Reset.{fresh};

use bus::Bus;
use chip::Chip;
use device::Device;

// t as given; a driver is awake if MODE1 says so.
pub fn counted(chip: Chip, mode1: u8, count: u64) -> Device
    ensures { result ≡ with_count (with_written (fresh chip 0) (set (fresh chip 0).written 0 mode1)) count }
{
    let mut next = Device::fresh(chip, 0);
    next.written[0] = mode1;
    next.count = count;
    next
}

// Other totals at one place of the two arrays.
pub fn totalled(bus: Bus, at: usize, lit: u64, unlit: u64) -> Bus
    requires { at < 128 }
    ensures { result ≡ record { phase = bus.phase; count = bus.count; devices = bus.devices; lit = set bus.lit at lit; unlit = set bus.unlit at unlit } }
{
    let mut next = bus;
    next.lit[at] = lit;
    next.unlit[at] = unlit;
    next
}
