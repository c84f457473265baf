// The four chips: their numbers, which are drivers, and how many outputs each has.
ghost use Rattle.std.specs.Prelude.{◌≡◌};
ghost use Rattle.chip.specs.Kinds.{Numbered, number_of, kind_of, chip_of, is_driver, outputs_of};

use crate::{Chip, UnknownChip};

impl From<Chip> for u64 {
    ghost from_gives = { λ chip number. number ≡ number_of chip };

    fn from(chip: Chip) -> u64 {
        match chip {
            Chip::Pca9635 => 9635,
            Chip::Pca9634 => 9634,
            Chip::Pca9531 => 9531,
            Chip::Pca9551 => 9551,
        }
    }
}

impl TryFrom<u64> for Chip {
    type Error = UnknownChip;

    ghost try_from_gives = { Numbered };

    fn try_from(number: u64) -> Result<Chip, UnknownChip> {
        match number {
            9635 => Ok(Chip::Pca9635),
            9634 => Ok(Chip::Pca9634),
            9531 => Ok(Chip::Pca9531),
            9551 => Ok(Chip::Pca9551),
            _ => Err(UnknownChip(number)),
        }
    }
}

impl Chip {
    // The byte that stands for the kind where boards are kept in bytes, and the kind that any byte stands for.
    pub fn kind(self) -> u8
        ensures { result ≡ kind_of self }
    {
        self as u8
    }

    pub fn of_kind(kind: u8) -> Chip
        ensures { result ≡ chip_of kind }
    {
        match kind {
            0 => Chip::Pca9635,
            1 => Chip::Pca9634,
            2 => Chip::Pca9531,
            _ => Chip::Pca9551,
        }
    }

    pub fn is_driver(self) -> bool
        ensures { result ≡ is_driver self }
    {
        matches!(self, Chip::Pca9635 | Chip::Pca9634)
    }

    pub fn outputs(self) -> u8
        ensures { result ≡ outputs_of self }
    {
        match self {
            Chip::Pca9635 => 16,
            Chip::Pca9634 | Chip::Pca9531 | Chip::Pca9551 => 8,
        }
    }
}
