//! Laws: what is written is read again as it was. Their functions do nothing; a caller cites what
//! they ensure.
ghost use Rattle.sa_lines.specs.Laws.{LinesAgain, TokensAgain, QuotedAgain, NumberedAgain, DecimalAgain, StrictIsDecimal, DecimalInFront};

/// A line that was written is the first that is read.
pub fn lines_again()
    ensures { LinesAgain }
{}

/// Tokens that were joined are read as they were.
pub fn tokens_again()
    ensures { TokensAgain }
{}

/// A text that was quoted is read as its UTF-8, and what follows it is left.
pub fn quoted_again()
    ensures { QuotedAgain }
{}

/// Inside a quoted text `\u{H}` is read as the code point whose number its one to six lower-case
/// hexadecimal digits make.
pub fn numbered_again()
    ensures { NumberedAgain }
{}

/// A number that was written in decimal is read as it was, a negative one with its minus sign.
pub fn decimal_again()
    ensures { DecimalAgain }
{}

/// Read strictly, a number has no other spelling than the one in decimal, alone and in front of bytes
/// that begin with no digit.
pub fn strict_again()
    ensures alone { StrictIsDecimal }
    ensures in_front { DecimalInFront }
{}
