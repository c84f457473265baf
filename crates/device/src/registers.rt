// A device's registers, as written and as in effect, and the bits of MODE1 and MODE2.
ghost use Rattle.std.specs.Prelude.{◌≡◌, get_or, set};
ghost use Rattle.basics.specs.Bits.{bit};
ghost use Rattle.chip.specs.Registers.{mode1};
ghost use Rattle.device.specs.Registers.{held, in_effect, pointer, is_sleep, is_awake, is_blinking, is_inverted, is_och, is_totem_pole, outne};

use crate::Device;

// Bit k of a byte is set.
pub fn bit(k: u8, byte: u8) -> bool
    ensures { result ≡ bit k byte }
{
    k < 8 && (byte >> k) % 2 == 1
}

pub fn at(registers: [u8; 28], register: usize) -> u8
    ensures { result ≡ get_or registers register 0 }
{
    registers.get(register).copied().unwrap_or(0)
}

pub fn with_byte(registers: [u8; 28], register: usize, byte: u8) -> [u8; 28]
    ensures { result ≡ set registers register byte }
{
    let mut next = registers;
    if register < 28 {
        next[register] = byte;
    }
    next
}

// SLEEP of a byte of MODE1.
pub fn is_sleep(mode1: u8) -> bool
    ensures { result ≡ bit 4 mode1 }
{
    bit(4, mode1)
}

// OCH of a byte of MODE2.
pub fn is_och(mode2: u8) -> bool
    ensures { result ≡ bit 3 mode2 }
{
    bit(3, mode2)
}

impl Device {
    // A register as written.
    pub fn held(self, register: usize) -> u8
        ensures { result ≡ held self register }
    {
        at(self.written, register)
    }

    // The rules' "in effect".
    #[tactic(auto, unfolding(crate::specs::Registers::in_effect))]
    pub fn in_effect(self, register: usize) -> u8
        ensures { result ≡ in_effect self register }
    {
        if self.chip.is_buffered(register) {
            at(self.effective, register)
        } else {
            self.held(register)
        }
    }

    // The register at which the control byte points.
    pub fn pointer(self) -> usize
        ensures { result ≡ pointer self }
    {
        self.chip.register(self.control) as usize
    }

    fn mode2(self) -> u8
        ensures { result ≡ held self 1 }
    {
        self.written[chip::MODE2 as usize]
    }

    pub fn is_asleep(self) -> bool
        ensures { result ≡ is_sleep self }
    {
        is_sleep(self.written[chip::MODE1 as usize])
    }

    // The rules' "awake": SLEEP 0; a blinker is always awake.
    #[tactic(auto, unfolding(crate::specs::Registers::is_awake))]
    pub fn is_awake(self) -> bool
        ensures { result ≡ is_awake self }
    {
        !(self.chip.is_driver() && self.is_asleep())
    }

    // DMBLNK: group blinking, not dimming.
    pub(crate) fn is_blinking(self) -> bool
        ensures { result ≡ is_blinking self }
    {
        bit(5, self.mode2())
    }

    // INVRT.
    pub(crate) fn is_inverted(self) -> bool
        ensures { result ≡ is_inverted self }
    {
        bit(4, self.mode2())
    }

    // OCH: outputs change at the acknowledge.
    pub fn is_och(self) -> bool
        ensures { result ≡ is_och self }
    {
        is_och(self.mode2())
    }

    // OUTDRV: totem pole, not open drain.
    pub(crate) fn is_totem_pole(self) -> bool
        ensures { result ≡ is_totem_pole self }
    {
        bit(2, self.mode2())
    }

    pub(crate) fn outne(self) -> u8
        ensures { result ≡ outne self }
    {
        self.mode2() % 4
    }
}
