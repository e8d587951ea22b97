ghost use Rattle.std.specs.Prelude.{◌≡◌, ◌++◌, ◌∷◌, ◌<◌, map, OnOk};
ghost use Rattle.std.specs.List.{flat_map};
ghost use Rattle.std.specs.Int.Digits.{digits_of};
ghost use Rattle.sa_plain.specs.Written.{hex_digit, hex_bytes, unit_bytes};

use sa_base::Memory;

/// A lower-case hexadecimal digit.
fn hex_digit(digit: u8) -> u8
    requires { digit < 16 }
    ensures { result ≡ hex_digit digit }
{
    if digit < 10 {
        b'0' + digit
    } else {
        b'a' + (digit - 10)
    }
}

/// Writes bytes at the end, each as two hexadecimal digits.
pub fn push_hex(out: &mut Vec<u8>, bytes: &[u8]) -> Result<(), Memory>
    ensures { OnOk result (out.new.items ≡ out.old.items ++ hex_bytes bytes.now) }
{
    for byte in bytes {
        out.extend_from_slice(&[hex_digit(byte / 16), hex_digit(byte % 16)])?;
    }
    Ok(())
}

/// Writes the hexadecimal digits of a number at the end, without leading zeros: none of 0.
fn push_digits(out: &mut Vec<u8>, number: u32) -> Result<(), Memory>
    ensures { OnOk result (out.new.items ≡ out.old.items ++ map hex_digit (digits_of 16 number)) }
{
    if number == 0 {
        return Ok(());
    }
    push_digits(out, number / 16)?;
    Ok(out.push(hex_digit((number % 16) as u8))?)
}

/// Writes a unit at the end in hexadecimal digits, without leading zeros.
pub fn push_unit(out: &mut Vec<u8>, unit: u32) -> Result<(), Memory>
    ensures { OnOk result (out.new.items ≡ out.old.items ++ unit_bytes unit) }
{
    if unit == 0 {
        Ok(out.push(b'0')?)
    } else {
        push_digits(out, unit)
    }
}
