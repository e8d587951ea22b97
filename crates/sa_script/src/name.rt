ghost use Rattle.std.specs.Prelude.{◌≡◌, length};
ghost use Rattle.sa_script.specs.Names.{name_of, is_name, is_name_byte, is_reserved};
ghost use Rattle.std.specs.List.{list_all};

use sa_lines::{first, is_word};
use std::marker::Model;

/// A name as it stands in a script: a letter a to z, then letters, digits and `_`, and no word that
/// means something else where a name may stand.
#[derive(Debug, Drop)]
pub struct Name<'a> {
    text: &'a str,
}

impl<'a> Model for Name<'a> {
    ghost use Rattle.std.specs.Prelude.{List, ℕ};

    ghost Value = { List ℕ };

    ghost view = { λ n. n.text.now };
}

impl<'a> Name<'a> {
    /// The name's text.
    pub fn as_str(&self) -> &'a str
        ensures { result.now ≡ self.now }
    {
        self.text
    }
}

/// Whether a byte may stand in a name behind its first.
fn is_name_byte(byte: u8) -> bool
    ensures { result ≡ is_name_byte byte }
{
    byte.is_ascii_lowercase() || byte.is_ascii_digit() || byte == b'_'
}

/// Whether each byte may stand in a name behind its first.
fn all_name_bytes(bytes: &[u8]) -> bool
    ensures { result ≡ list_all is_name_byte bytes.now }
{
    bytes.iter().all(|byte| is_name_byte(*byte))
}

/// Whether a token is a letter a to z, and then letters, digits and `_`.
fn is_name(token: &[u8]) -> bool
    ensures { result ≡ is_name token.now }
{
    match first(token) {
        Some((byte, rest)) => byte.is_ascii_lowercase() && all_name_bytes(rest),
        None => false,
    }
}

/// Whether a token means something else where a name may stand.
fn is_reserved(token: &[u8]) -> bool
    ensures { result ≡ is_reserved token.now }
{
    is_word(b"na", token)
        || is_word(b"true", token)
        || is_word(b"false", token)
        || is_word(b"into", token)
}

/// The name that a token spells.
pub fn name_of(token: &[u8]) -> Option<Name<'_>>
    ensures { result ≡ name_of token.now }
{
    if !is_name(token) || is_reserved(token) {
        return None;
    }
    match std::str::from_utf8(token) {
        Ok(text) => Some(Name { text }),
        Err(_) => unreachable!(),
    }
}
