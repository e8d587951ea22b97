ghost use Rattle.std.specs.Prelude.{◌≡◌, ◌≤◌, drop, map, string_bytes, IfSome};
ghost use Rattle.strarr.specs.Outputs.{command_of, command_with, number_within, workers_in};

use sa_lines::{first, is_word, number_of};

/// A command of the program.
#[derive(Clone, Copy, Debug, PartialEq, Eq)]
pub enum Command {
    /// Performs a script's tasks on so many workers, from 1 to 16, and writes the report.
    Run(u32),
    /// Performs a script's tasks one after another, and writes the report.
    Serial,
    /// Performs the sample of this number, from 0 to 65,535, as `Serial` does, and writes a summary.
    Sample(u32),
}

/// The command that the words after the program's name are: `run` and a number of workers, `serial`, or
/// `sample` and the number of one. It takes no memory.
pub fn read_words(words: &[String]) -> Option<Command>
    ensures { result ≡ command_of (map string_bytes words.now) }
{
    match words {
        [word] if is_word(b"serial", word.as_bytes()) => Some(Command::Serial),
        [word, number] => command_with(word.as_bytes(), number.as_bytes()),
        _ => None,
    }
}

/// How many workers the words ask for; none where they are another command or none.
pub fn workers_in(words: &[String]) -> Option<u32>
    ensures workers { result ≡ workers_in (command_of (map string_bytes words.now)) }
    ensures some { IfSome result (λ n. 1 ≤ n) }
{
    match read_words(words) {
        Some(Command::Run(workers)) => Some(workers),
        Some(Command::Serial) | Some(Command::Sample(_)) | None => None,
    }
}

/// A command of two words.
fn command_with(word: &[u8], number: &[u8]) -> Option<Command>
    ensures { result ≡ command_with word.now number.now }
{
    if is_word(b"run", word) {
        return Some(Command::Run(number_within(1, 16, number)?));
    }
    if is_word(b"sample", word) {
        return Some(Command::Sample(number_within(0, 65535, number)?));
    }
    None
}

/// The number between two bounds that a word spells: one to five digits.
fn number_within(least: u32, most: u32, word: &[u8]) -> Option<u32>
    ensures { result ≡ number_within least most word.now }
{
    if word.len() > 5 {
        return None;
    }
    if let Some((b'-', _)) = first(word) {
        return None;
    }
    let number = number_of(word)??;
    if i64::from(least) <= number && number <= i64::from(most) {
        Some(number as u32)
    } else {
        None
    }
}

/// The words after the program's name, of all words of the command line. It takes no memory.
pub fn words_after_name(mut all: Vec<String>) -> Vec<String>
    ensures { result.items ≡ drop 1 all.items }
{
    if all.is_empty() {
        return all;
    }
    all.remove(0);
    all
}
