ghost use Rattle.sa_report.specs.Naming.{NamesItsHistory};

use sa_lines::{lines_again, strict_again, tokens_again};

/// A report names its history and its marks: both can be read back from its bytes.
pub fn names_its_history()
    ensures { NamesItsHistory }
{
    lines_again();
    tokens_again();
    strict_again();
}
