// The text of a setting written into a lent buffer.
ghost use Rattle.std.specs.Prelude.{[], ◌++◌, ◌+◌, ◌*◌, ◌≤◌, ◌<◌, length};
ghost use Rattle.text.specs.Text.{text, decimal};
ghost use Rattle.text.specs.Write.{Written};
ghost use Rattle.setting.specs.Setting.{register_line, register_lines, setting_text};

use crate::Setting;
use text::proved_callers::{write_decimal, write_text};

// A key, a number and a line feed.
fn write_line(key: &[u8], n: u64, out: &mut [u8], at: usize) -> usize
    requires { at + length key.now + 21 ≤ length out.old }
    ensures { Written out.old at (key.now ++ (decimal n ++ text "\n")) out.new result }
{
    let a = write_text(key, out, at);
    let b = write_decimal(n, out, a);
    write_text(b"\n", out, b)
}

// The line of a register: at most 8 bytes, since both numbers are small.
fn write_register(register: u64, value: u8, out: &mut [u8], at: usize) -> usize
    requires { (register < 100) × (at + 25 ≤ length out.old) }
    ensures written { Written out.old at (register_line register value []) out.new result }
    ensures upper_bound { result ≤ at + 8 }
{
    let a = write_text(b"r", out, at);
    let b = write_decimal(register, out, a);
    write_line(b"=", u64::from(value), out, b)
}

// A line for each of the values, from the first register on.
#[tactic(auto, unfolding(crate::specs::Setting::register_lines))]
fn write_registers(first: u64, values: &[u8], out: &mut [u8], at: usize) -> usize
    requires { (first + length values.now ≤ 100) × (at + 8 * length values.now + 25 ≤ length out.old) }
    ensures { Written out.old at (register_lines first values.now) out.new result }
{
    let mut end = at;
    for (i, &value) in values.iter().enumerate() {
        end = write_register(first + i as u64, value, out, end);
    }
    end
}

// Writes the text to the start of the buffer, and gives where it ends.
pub fn write_setting(setting: Setting, out: &mut [u8]) -> usize
    requires { 272 ≤ length out.old }
    ensures { Written out.old 0 (setting_text setting) out.new result }
{
    let chip = setting.chip;
    let values = setting.values;
    let a = write_line(b"chip=", u64::from(chip), out, 0);
    let b = write_line(b"addr=", u64::from(setting.addr), out, a);
    let first = u64::from(chip.first_writable());
    write_registers(first, &values[..usize::from(chip.writables())], out, b)
}
