ghost use Rattle.std.specs.Prelude.{◌≡◌, ◌++◌, OnOk, OnErr, decimal, option_map, min, ◌+◌, ◌^◌};
ghost use Rattle.sa_lines.specs.Numbers.{digits_of, fitted_negative, number_of};

use crate::bytes::first;
use itoa::Buffer;
use sa_base::Memory;

/// Above every number of a script: no i64 and no negation of one reaches it.
const CAP: u64 = 9_223_372_036_854_775_809;

/// One or more decimal digits as a number, brought down to 2^63 + 1 where it is above.
fn digits_of(bytes: &[u8]) -> Option<u64>
    ensures { result ≡ option_map (min (2 ^ 63 + 1)) (digits_of bytes.now) }
{
    if bytes.is_empty() {
        return None;
    }
    let mut value = 0u64;
    let mut rest = bytes;
    'digits: while let Some((byte, others)) = first(rest) {
        if !byte.is_ascii_digit() {
            return None;
        }
        let digit = u64::from(byte - b'0');
        value = if value > 922_337_203_685_477_580 {
            CAP
        } else {
            (value * 10 + digit).min(CAP)
        };
        rest = others;
    }
    Some(value)
}

/// An optional minus sign and decimal digits. The outer none is no number, the inner none a number
/// that is no i64.
pub fn number_of(bytes: &[u8]) -> Option<Option<i64>>
    ensures { result ≡ number_of bytes.now }
{
    let (byte, rest) = first(bytes)?;
    if byte == b'-' {
        let value = digits_of(rest)?;
        return Some(negative(value));
    }
    let value = digits_of(bytes)?;
    Some(i64::try_from(value).ok())
}

/// A negative number, by its distance from 0.
fn negative(value: u64) -> Option<i64>
    ensures { result ≡ fitted_negative value }
{
    if value == 0 {
        return Some(0);
    }
    let before = i64::try_from(value - 1).ok()?;
    Some(-1 - before)
}

/// Writes a number in decimal at the end. Where there is no memory, nothing is written.
pub fn push_decimal(out: &mut Vec<u8>, number: u64) -> Result<(), Memory>
    ensures written { OnOk result (out.new.items ≡ out.old.items ++ decimal number) }
    ensures unchanged { OnErr result (out.new.items ≡ out.old.items) }
{
    let mut buffer = Buffer::new();
    out.extend_from_slice(buffer.format(number).as_bytes())?;
    Ok(())
}
