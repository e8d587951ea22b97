//! The script language: the statements of a script, its faults, and what a script declares and calls.
//!
//! A script is lines. Lines without a statement are skipped: those of blanks alone, and those whose
//! first byte that is no blank is `#`. The statements that are built so far:
//!
//! | line | meaning |
//! |---|---|
//! | `version 2` | the script is of version 2. It stands before every other statement; without it the version is 1 |
//! | `descr NAME RULE` | a descriptor. RULE is `absent`, `nan`, `other` or `text TEXT`; `coerce` or `strict` may follow, and without them it coerces |
//! | `array NAME DESCR str N` | a strings array of length N, whose home is the descriptor DESCR |
//! | `array NAME DESCR int N`, `array NAME DESCR bool N` | an array of N numbers, or of N truth values |
//! | `array NAME DESCR bytes W N`, `array NAME DESCR fixed W N` | an array of N texts of W bytes, or of W units |
//! | `task` | the next task begins |
//! | `set VIEW LIST` | a call that puts the items of LIST into a view |
//! | `copy VIEW into VIEW` | a call that puts the items of the first view into the second |
//! | `show VIEW` | a call that answers the items of a view |
//! | `add T T` | a call that makes two texts one |
//! | `multiply T I` | a call that repeats a text |
//! | `center T I`, `ljust T I`, `rjust T I` | calls that fill a text up to a width. FILL may follow, a list of one text of one code point; without it the fill is a space |
//! | `zfill T I` | a call that fills a text with zeros behind its sign |
//! | `strip T`, `lstrip T`, `rstrip T` | calls that take spaces away at both ends of a text, in front, or at the end. T may follow, a text whose code points are taken away instead |
//! | `replace T T T` | a call that puts the third text in place of the second in the first. I may follow: how many times at most |
//! | `find T T`, `rfind T T`, `index T T`, `rindex T T`, `count T T` | calls that tell the place of the second text in the first, or how often it stands there. Two I may follow: where the search begins and ends |
//! | `starts T T`, `ends T T` | calls that test whether the second text stands at an edge of the first. Two I may follow |
//! | `equal T T`, `not_equal T T`, `less T T`, `less_equal T T`, `greater T T`, `greater_equal T T` | calls that compare two texts |
//! | `isalpha T`, `isdecimal T`, `isalnum T`, `isspace T` | calls that test what a text consists of |
//! | `stats DESCR` | a call that answers the statistics of a descriptor |
//! | `image DESCR` | a call that answers the picture of a descriptor |
//! | `end` | the script ends |
//!
//! A VIEW is an array's name, for all of its items, or one of these, without blanks:
//!
//! | view | items |
//! |---|---|
//! | `NAME[start,count,step]` | those at start, start + step and so on, count of them |
//! | `NAME[from:to]`, `NAME[from:to:step]` | those of Python's slice; each number may be left out. In version 2 alone |
//!
//! A LIST is one item, or items in brackets with commas between them, without blanks, all of one kind:
//!
//! | items | spelling |
//! |---|---|
//! | texts and missing values | a text in quotes, and `na` |
//! | numbers | an optional `-` and digits |
//! | truth values | `true` and `false` |
//! | byte texts | `hex:` and two hexadecimal digits for each byte |
//! | unicode texts | `units:` and one to eight hexadecimal digits for each unit, with `.` between two |
//!
//! Hexadecimal digits are of either case here, and a text may have no byte and no unit. T is a view of a strings
//! array or a list of texts, and I a view of an array of numbers or a list of numbers. The lines of calls that
//! make texts, or tell numbers or truth values, may go on with `into VIEW`, a view of an array that holds such.
//! Where operands may follow they are left out before the word `into` and at the end of the line.
//!
//! One item of a list or a view is put into each place of an output. Calls are read by the table of
//! calls (`sa_call::Op::form`). Declarations stand before the first task, and calls in a task. Bytes that
//! are no script have a fault: the first faulty line, counted from 1, and in it the fault with the least
//! number.
//!
//! | number | fault |
//! |---|---|
//! | 1 | the line is not UTF-8 |
//! | 2 | it is no statement: an unknown first word, a wrong number of tokens, or a token of no fitting spelling; a slice in version 1, or `version 2` behind another statement |
//! | 3 | a declaration after the first task, a call before it, or a statement after the end |
//! | 4 | a name that is declared already, or used and not declared, or declared as the other sort |
//! | 5 | a limit is passed, a length is below 0, a width is below 1, or a number is no i64 |
//! | 6 | a view is none of its array: start or count is no u32, the step is no i32, that of a slice is 0, or it does not fit |
//! | 7 | an operand, the fill or the output is of another kind than the call takes or gives, or has `na` where only `set` on a strings array may have it; a text is wider than the array it is put into, or two arrays have other widths |
//! | 8 | the count of an operand is neither 1 nor the output's |
//! | 9 | two descriptors of the views of strings arrays of a call, its output included, have rules that are not `absent` and differ; `set`, `copy` and `show` do not ask |
//! | 10 | the fill is not one text of one code point |
//! | 11 | there is no end; the line is the last one, 0 where there is none |
//!
//! The limits are 8 descriptors, 64 arrays, 8,192 entries of all arrays of a descriptor together, 64
//! tasks, 1,024 calls, 8,192 items of a list, 65,536 bytes of a text, 32 bytes of a declared name, and a width
//! of 256.
//!
//! Contracts see a script as its version, its declarations, their names and its tasks' calls. `parse`
//! answers the script or the fault that the definition of a script's meaning gives, or that there is no
//! memory. Each script keeps the limits, its names and texts are such, and each of its calls is valid
//! under its declarations.
#![tactic(auto)]

mod cause;
mod clashes;
mod context;
mod fault;
mod faults;
mod fixed_text;
mod item;
mod item_kind;
mod kinds;
mod list;
mod name;
mod names;
mod parsing;
mod reading;
mod resolving;
mod script;
mod statement;
mod view;

pub use fault::ScriptFault;
pub use names::Names;
pub use parsing::parse;
pub use script::Script;

#[cfg(test)]
mod tests;
