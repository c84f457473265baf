// The text of a setting read back.
ghost use Rattle.std.specs.Prelude.{◌≡◌, ◌&&◌, not, List, ℕ};
ghost use Rattle.chip.specs.Kinds.{is_unknown};
ghost use Rattle.chip.specs.Addresses.{is_barred};
ghost use Rattle.text.specs.Read.{rest_at, number_in};
ghost use Rattle.setting.specs.Reader.{is_read, line_of, register_of, all_registers, known_chip, all_values, setting_of, reading_of};
ghost use Rattle.setting.specs.laws.Whole.{judged};

use crate::Setting;
use chip::{Chip, is_barred};
use refusals::Reason;
use text::{Field, at_end, number_of, read_field, read_key, start};

// What a text says, also where it is refused: what `Setting::read` gives, and the setting as far as it is read.
#[derive(Clone, Copy, Debug, PartialEq, Eq)]
pub struct Reading {
    pub read: Result<Setting, Reason>,
    pub setting: Setting,
}

// Past a key, a number and a line feed.
#[tactic(auto, unfolding(crate::specs::Reader::line_of))]
fn read_line(text: &[u8], from: Option<Field>, key: &[u8]) -> Option<Field>
    ensures { rest_at text.now result ≡ line_of key.now (rest_at text.now from) }
{
    read_key(text, read_field(text, from, key), b"\n")
}

// Past the line of a register, which has a byte.
#[tactic(auto, using(crate::proofs::Lines::no_number), unfolding(crate::specs::Reader::register_of))]
fn read_register(text: &[u8], from: Option<Field>, register: u64) -> Option<Field>
    ensures { rest_at text.now result ≡ register_of register (rest_at text.now from) }
{
    let number = read_field(text, from, b"r")?;
    let value = read_line(text, Some(number), b"=")?;
    (number.number == register && value.number <= 255).then_some(value)
}

// Past the lines of all writable registers of the chip, and the values in them, as far as they are read.
// By index, since that counts the registers too.
fn read_registers(text: &[u8], from: Option<Field>, chip: Chip) -> (Option<Field>, [u8; 28])
    ensures field { rest_at text.now result.0 ≡ all_registers chip (rest_at text.now from) }
    ensures values { result.1 ≡ all_values chip (rest_at text.now from) }
{
    let first = u64::from(chip.first_writable());
    let mut field = from;
    let mut values = [0; 28];
    for i in 0..usize::from(chip.writables()) {
        field = read_register(text, field, first + i as u64);
        let Some(value) = field else {
            return (None, values);
        };
        values[i] = value.number as u8;
    }
    (field, values)
}

// The chip that is named; any, where none is.
fn known_chip(found: Option<Chip>) -> Chip
    ensures { result ≡ known_chip found }
{
    found.unwrap_or(Chip::Pca9635)
}

// The setting, or the reason with the least number.
fn judge(
    kind: Option<Field>,
    found: Option<Chip>,
    address: Option<Field>,
    whole: bool,
    setting: Setting,
) -> Result<Setting, Reason>
    ensures { (l : List ℕ) → result ≡ judged (is_read (rest_at l kind) && is_unknown found) (is_read (rest_at l address) && is_barred found (number_in (rest_at l address))) (not whole) setting }
{
    if kind.is_some() && found.is_none() {
        return Err(Reason::UnknownKind);
    }
    if address.is_some_and(|address| is_barred(found, address.number)) {
        return Err(Reason::WrongAddress);
    }
    if !whole {
        return Err(Reason::Malformed);
    }
    Ok(setting)
}

// What a text says, whatever its bytes. `Setting::read` is for where nothing is asked of a text that is refused: it stops there.
pub fn read_setting(text: &[u8]) -> Reading
    ensures read { result.read ≡ reading_of text.now }
    ensures setting { result.setting ≡ setting_of text.now }
{
    let kind = read_line(text, start(), b"chip=");
    let found = Chip::try_from(number_of(kind)).ok();
    let chip = known_chip(found);
    let address = read_line(text, kind, b"addr=");
    let (end, values) = read_registers(text, address, chip);
    let setting = Setting {
        chip,
        addr: (number_of(address) % 256) as u8,
        values,
    };
    Reading {
        read: judge(kind, found, address, at_end(text, end), setting),
        setting,
    }
}

impl Setting {
    // The setting that a text says, whatever its bytes.
    #[tactic(auto, using(crate::proofs::Lines::no_kind, crate::proofs::Lines::no_chip, crate::proofs::Lines::no_address, crate::proofs::Lines::barred, crate::proofs::Lines::no_end, crate::proofs::Lines::address_byte, crate::proofs::Lines::taken))]
    pub fn read(text: &[u8]) -> Result<Setting, Reason>
        ensures { result ≡ reading_of text.now }
    {
        let kind = read_line(text, start(), b"chip=").ok_or(Reason::Malformed)?;
        let chip = Chip::try_from(kind.number).map_err(|_| Reason::UnknownKind)?;
        let address = read_line(text, Some(kind), b"addr=").ok_or(Reason::Malformed)?;
        if !chip.allows(address.number) {
            return Err(Reason::WrongAddress);
        }
        let (end, values) = read_registers(text, Some(address), chip);
        if !at_end(text, end) {
            return Err(Reason::Malformed);
        }
        Ok(Setting {
            chip,
            addr: address.number as u8,
            values,
        })
    }
}
