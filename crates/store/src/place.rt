// One place of a store: what its bytes say, whether they are of the right shape, and the bytes of a version.
ghost use Rattle.std.specs.Prelude.{◌≡◌, eqb, length};
ghost use Rattle.basics.specs.First.{all};
ghost use Rattle.setting.specs.Setting.{setting_ok};
ghost use Rattle.store.specs.Saved.{saved, newest};
ghost use Rattle.store.specs.Layout.{version_in, table_in, setting_in, place_of, held_ok, place_ok, saved_at};
ghost use Rattle.store.specs.laws.Layout.{is_at};

use chip::Chip;
use setting::Setting;

// The bytes of a place, and where each part stands (docs/STORE.md).
pub const WIDTH: usize = 40;

const TABLE: usize = 8;

const KIND: usize = 9;

const ADDRESS: usize = 10;

const SPARE: usize = 11;

const VALUES: usize = 12;

// The largest number of a version, 2 ^ 48.
pub const VERSION_LIMIT: u64 = 281474976710656;

#[derive(Clone, Copy)]
pub struct Place<'a> {
    pub bytes: &'a [u8; WIDTH],
}

// Whether every byte is 0. It looks at all of them, so that the compiler takes sixteen at a time.
fn is_zero(bytes: &[u8]) -> bool
    ensures { result ≡ all (λ x. eqb x 0) bytes.now }
{
    bytes.iter().fold(true, |zero, &x| zero & (x == 0))
}

// The bytes of a version.
pub fn bytes_of(table: u8, version: u64, setting: Setting) -> [u8; WIDTH]
    ensures { result ≡ place_of (saved table version setting) }
{
    let mut bytes = [0; WIDTH];
    bytes[..TABLE].copy_from_slice(&version.to_le_bytes());
    bytes[TABLE] = table;
    bytes[KIND] = setting.chip.kind();
    bytes[ADDRESS] = setting.addr;
    bytes[VALUES..].copy_from_slice(&setting.values);
    bytes
}

impl Place<'_> {
    #[tactic(auto, using(crate::proofs::laws::Bytes::number_bytes))]
    pub fn version(self) -> u64
        ensures { result ≡ version_in self.entry.bytes.now }
    {
        let bytes = self.bytes;
        u64::from_le_bytes(*bytes.first_chunk().unwrap())
    }

    pub fn table(self) -> u8
        ensures { result ≡ table_in self.entry.bytes.now }
    {
        self.bytes[TABLE]
    }

    pub fn setting(self) -> Setting
        ensures { result ≡ setting_in self.entry.bytes.now }
    {
        let bytes = self.bytes;
        Setting {
            chip: Chip::of_kind(bytes[KIND]),
            addr: bytes[ADDRESS],
            values: *bytes.last_chunk().unwrap(),
        }
    }

    pub fn is_free(self) -> bool
        ensures { result ≡ eqb (version_in self.entry.bytes.now) 0 }
    {
        self.version() == 0
    }

    // The version, where it is of the table, or 0.
    #[tactic(auto, using(crate::proofs::laws::Layout::newest_own, crate::proofs::laws::Layout::newest_other))]
    pub fn version_of(self, table: u64) -> u64
        ensures { result ≡ newest table (saved_at self.entry.bytes.now) }
    {
        if u64::from(self.table()) == table {
            self.version()
        } else {
            0
        }
    }

    // Whether it holds this version of the table. 0 is none: asked of the number sought, the compiler asks it once a search.
    pub fn is_at(self, table: u64, version: u64) -> bool
        ensures { result ≡ is_at table version self.entry.bytes.now }
    {
        version != 0 && self.version() == version && u64::from(self.table()) == table
    }

    // Whether the chip can have the address, and zeros stand behind the values.
    #[tactic(auto, unfolding(setting::specs::Setting::setting_ok))]
    fn is_setting_ok(self) -> bool
        ensures { result ≡ setting_ok (setting_in self.entry.bytes.now) }
    {
        let bytes = self.bytes;
        let chip = Chip::of_kind(bytes[KIND]);
        let past = VALUES + usize::from(chip.writables());
        chip.allows(u64::from(bytes[ADDRESS])) && is_zero(&bytes[past..])
    }

    // Whether a place with a version is of the right shape; and whether any place is.
    fn is_held_ok(self) -> bool
        ensures { result ≡ held_ok self.entry.bytes.now }
    {
        self.version() <= VERSION_LIMIT
            && self.table() < 64
            && self.bytes[KIND] < 4
            && self.bytes[SPARE] == 0
            && self.is_setting_ok()
    }

    #[tactic(auto, unfolding(crate::specs::Layout::place_ok))]
    pub fn is_ok(self) -> bool
        ensures { result ≡ place_ok self.entry.bytes.now }
    {
        if self.is_free() {
            let bytes = self.bytes;
            is_zero(bytes)
        } else {
            self.is_held_ok()
        }
    }
}
