// The bus on lent state: 64 bytes and a count for each device, and the totals. An event changes it in place.
#![tactic(auto)]

ghost use Rattle.std.specs.Prelude.{◌≡◌, length};

use device::Phase;

mod lens;
mod place;
pub mod proved_callers;
mod signals;
mod steps;

// The four slices that are lent, beside the message's phase and the number of devices.
#[derive(Drop)]
pub struct Lent<'a> {
    pub phase: Phase,
    pub count: u8,
    pub bytes: &'a mut [u8],
    pub counts: &'a mut [u64],
    pub lit: &'a mut [u64],
    pub unlit: &'a mut [u64],
    ghost bytes_long: { length bytes.now ≡ 512 },
    ghost counts_long: { length counts.now ≡ 8 },
    ghost lit_long: { length lit.now ≡ 128 },
    ghost unlit_long: { length unlit.now ≡ 128 },
}

// Of these what belongs to one device: its bytes and its count.
#[derive(Drop)]
struct LentDevice<'a> {
    bytes: &'a mut [u8],
    count: &'a mut u64,
    ghost long: { length bytes.now ≡ 64 },
}
