// Which hardware addresses a chip can have.
ghost use Rattle.std.specs.Prelude.{◌≡◌};
ghost use Rattle.chip.specs.Addresses.{address_allowed, is_barred};

use crate::Chip;

impl Chip {
    #[tactic(auto, unfolding(crate::specs::Addresses::address_allowed))]
    pub fn allows(self, address: u64) -> bool
        ensures { result ≡ address_allowed self address }
    {
        if self.is_driver() {
            address != 3 && address != 112 && address <= 127
        } else {
            address <= 7
        }
    }
}

// Whether the chip of a number cannot have the address.
pub fn is_barred(found: Option<Chip>, address: u64) -> bool
    ensures { result ≡ is_barred found address }
{
    found.is_some_and(|chip| !chip.allows(address))
}
