ghost use Rattle.std.specs.Prelude.{◌≡◌, ℕ, Bool};
ghost use Rattle.sa_pred.specs.Closures.{Computes};
ghost use Rattle.sa_pred.specs.Predicates.{all_of, is_alpha, is_decimal, is_alnum, is_space};

use crate::classes::{is_decimal_number, is_letter, is_letter_or_number};
use sa_text::Text;

/// Whether the text is not empty and each code point is a letter: its general category is Lu, Ll, Lt, Lm
/// or Lo, as Python's `str.isalpha`.
pub fn is_alpha(a: &Text) -> bool
    ensures { result ≡ is_alpha a.now }
{
    is_each(a, |point| is_letter(point))
}

/// Whether the text is not empty and each code point is a decimal digit: its general category is Nd, as
/// Python's `str.isdecimal`.
pub fn is_decimal(a: &Text) -> bool
    ensures { result ≡ is_decimal a.now }
{
    is_each(a, |point| is_decimal_number(point))
}

/// Whether the text is not empty and each code point is a letter or a number: its general category is one
/// of a letter, or Nd, Nl or No, as Python's `str.isalnum`.
pub fn is_alnum(a: &Text) -> bool
    ensures { result ≡ is_alnum a.now }
{
    is_each(a, |point| is_letter_or_number(point))
}

/// Whether the text is not empty and each code point is one of the 29 spaces, as Python's `str.isspace`.
pub fn is_space(a: &Text) -> bool
    ensures { result ≡ is_space a.now }
{
    is_each(a, |point| sa_text::is_space(point))
}

/// Whether the text is not empty and each code point passes a test: that which the closure computes.
#[inline(always)]
fn is_each<F: FnMut(char) -> bool>(a: &Text, passes: F) -> bool
    requires { (state : F) (point : ℕ) → F.pre state point }
    ensures { (test : ℕ → Bool) → Computes (F.step passes) passes test → result ≡ all_of test a.now }
{
    if a.size() == 0 {
        return false;
    }
    let text = unsafe { str::from_utf8_unchecked(a.as_bytes()) };
    text.chars().all(passes)
}
