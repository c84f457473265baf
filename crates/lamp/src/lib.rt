// When an output is lit, and for how many ticks of a window, in each mode of each chip.
#![tactic(auto)]

mod blinker;
mod count;
mod driver;
mod group;
mod mode;
mod outputs;
pub mod proved_callers;
mod unit;
mod window;

pub use group::Group;
pub use mode::Mode;
pub use unit::Unit;
pub use window::LIMIT;

// Ticks of a driver's oscillator, 40 ns each.
#[derive(Clone, Copy, Debug, PartialEq, Eq, PartialOrd, Ord)]
pub struct DriverTicks(pub u64);

// Steps of a blinker's oscillator, 1/38,912 s on the PCA9531 and 1/9,728 s on the PCA9551.
#[derive(Clone, Copy, Debug, PartialEq, Eq, PartialOrd, Ord)]
pub struct BlinkerSteps(pub u64);

// A length of time in the unit of one oscillator.
#[derive(Clone, Copy, Debug, PartialEq, Eq)]
pub enum Duration {
    Ticks(DriverTicks),
    Steps(BlinkerSteps),
}

// What a driver's output follows: its LEDOUT bits, and the registers that they select.
#[derive(Clone, Copy, Debug, PartialEq, Eq)]
pub enum DriverMode {
    Off,
    On,
    Individual { pwm: u8 },
    Dimmed { pwm: u8, grppwm: u8 },
    Blinking { pwm: u8, grppwm: u8, grpfreq: u8 },
}

// What a blinker's output follows. LitBelow is the PCA9531's sense, LitFrom the PCA9551's.
#[derive(Clone, Copy, Debug, PartialEq, Eq)]
pub enum BlinkerMode {
    Off,
    On,
    LitBelow { psc: u8, pwm: u8 },
    LitFrom { psc: u8, pwm: u8 },
}

// The registers that all outputs of a driver share: the bit DMBLNK, GRPPWM and GRPFREQ.
#[derive(Clone, Copy, Debug, PartialEq, Eq)]
pub struct GroupRegisters {
    pub dmblnk: bool,
    pub grppwm: u8,
    pub grpfreq: u8,
}

// The ticks from one count up to another, by 256s: the whole ones from end to end, and what is left at either end.
#[derive(Clone, Copy, Debug, PartialEq, Eq)]
pub struct Stretch {
    pub whole: u64,
    pub first: u64,
    pub last: u64,
}

// What a driver's outputs share over a wait: the lit ticks of one that is on, and a stretch each of all ticks and of those at which the
// group test holds. Awake that is the wait; asleep it is the present tick, which stands for all of them: each of its ticks is so many.
#[derive(Clone, Copy, Debug, PartialEq, Eq)]
pub struct Shared {
    pub on: u64,
    pub each: u64,
    pub all: Stretch,
    pub group: Stretch,
}
