// Records to hand in.
ghost use Rattle.std.specs.Prelude.{◌≡◌, ◌<◌, set};
ghost use Rattle.totals.specs.Totals.{record_of, zeros};

use device::Device;
use totals::Record;

// Its totals are 0.
pub fn of(device: Device) -> Record
    ensures { result ≡ record_of device zeros zeros }
{
    Record {
        device,
        lit: [0; 16],
        unlit: [0; 16],
    }
}

pub fn with_totals(r: Record, out: usize, lit: u64, unlit: u64) -> Record
    requires { out < 16 }
    ensures { result ≡ record_of r.device (set r.lit out lit) (set r.unlit out unlit) }
{
    let mut next = r;
    next.lit[out] = lit;
    next.unlit[out] = unlit;
    next
}
