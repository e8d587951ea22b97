ghost use Rattle.std.specs.Prelude.{◌≡◌, Option, option_map, ◌++◌, IfOk, OnOk, Some, None, MatchOption};
ghost use Rattle.sa_lines.specs.Tokens.{tokens_of};
ghost use Rattle.sa_script.specs.Items.{list_of};
ghost use Rattle.sa_script.specs.Statements.{statement_of, version_of, descr_of, array_of, call_of, rule_of, text_rule_of, coerce_of, kind_alone, kind_wide, shape_of, alone, front_of, term_of, terms_of, is_over, left_out, behind_terms, operands_of, list_or_view, into_of, may_into, behind_of};

use crate::item::text_token;
use crate::list::list_of;
use crate::name::name_of;
use crate::statement::{KindTerm, Line, Statement, Term, ViewTerm};
use crate::view::view_of;
use sa_base::{Memory, Sequence};
use sa_call::{IntList, Into, Items, Op, Sort};
use sa_descr::NaRule;
use sa_lines::{is_word, next_token, number_of};
use std::alloc::Global;

/// The statement that a line's tokens spell.
pub fn statement_of<'a>(
    alloc: Global,
    scratch: &mut Vec<u8>,
    line: &'a [u8],
) -> Result<Option<Statement<'a>>, Memory>
    ensures { IfOk result (λ s. s ≡ statement_of (tokens_of line.now)) }
{
    let Some((word, rest)) = next_token(line) else {
        return Ok(None);
    };
    if is_word(b"version", word) {
        return Ok(version_of(rest));
    }
    if is_word(b"descr", word) {
        return descr_of(alloc, scratch, rest);
    }
    if is_word(b"array", word) {
        return Ok(array_of(rest));
    }
    if is_word(b"task", word) {
        return Ok(alone(Statement::Task, rest));
    }
    if is_word(b"end", word) {
        return Ok(alone(Statement::End, rest));
    }
    match Op::from_word(word) {
        Some(op) => call_of(alloc, scratch, op, rest),
        None => Ok(None),
    }
}

/// A statement of one word, where nothing follows it.
fn alone<'a>(statement: Statement<'a>, rest: &[u8]) -> Option<Statement<'a>>
    ensures { result ≡ alone statement.entry (tokens_of rest.now) }
{
    match next_token(rest) {
        None => Some(statement),
        Some(_) => None,
    }
}

/// What follows `descr`: a name, a rule, and whether the descriptor coerces.
fn descr_of<'a>(
    alloc: Global,
    scratch: &mut Vec<u8>,
    line: &'a [u8],
) -> Result<Option<Statement<'a>>, Memory>
    ensures { IfOk result (λ s. s ≡ descr_of (tokens_of line.now)) }
{
    let Some((token, rest)) = next_token(line) else {
        return Ok(None);
    };
    let Some(name) = name_of(token) else {
        return Ok(None);
    };
    let Some((rule, rest)) = rule_of(alloc, scratch, rest)? else {
        return Ok(None);
    };
    let Some(coerce) = coerce_of(rest) else {
        return Ok(None);
    };
    Ok(Some(Statement::Descr(name, rule, coerce)))
}

/// A rule of missing values, none inside where its text is too long, and what follows it.
fn rule_of<'a>(
    alloc: Global,
    scratch: &mut Vec<u8>,
    line: &'a [u8],
) -> Result<Option<(Option<NaRule>, &'a [u8])>, Memory>
    ensures { IfOk result (λ r. option_map (λ x. (x.0, tokens_of x.1.now)) r ≡ rule_of (tokens_of line.now)) }
{
    let Some((word, rest)) = next_token(line) else {
        return Ok(None);
    };
    if is_word(b"absent", word) {
        return Ok(Some((Some(NaRule::Absent), rest)));
    }
    if is_word(b"nan", word) {
        return Ok(Some((Some(NaRule::Nan), rest)));
    }
    if is_word(b"other", word) {
        return Ok(Some((Some(NaRule::Other), rest)));
    }
    if is_word(b"text", word) {
        return text_rule_of(alloc, scratch, rest);
    }
    Ok(None)
}

/// The text of a text rule, none inside where it is too long, and what follows it.
fn text_rule_of<'a>(
    alloc: Global,
    scratch: &mut Vec<u8>,
    line: &'a [u8],
) -> Result<Option<(Option<NaRule>, &'a [u8])>, Memory>
    ensures { IfOk result (λ r. option_map (λ x. (x.0, tokens_of x.1.now)) r ≡ text_rule_of (tokens_of line.now)) }
{
    let Some((token, rest)) = next_token(line) else {
        return Ok(None);
    };
    match text_token(alloc, scratch, token)? {
        Some(Some(text)) => Ok(Some((Some(NaRule::Txt(text)), rest))),
        Some(None) => Ok(Some((None, rest))),
        None => Ok(None),
    }
}

/// Nothing, `coerce` or `strict`.
fn coerce_of(line: &[u8]) -> Option<bool>
    ensures { result ≡ coerce_of (tokens_of line.now) }
{
    let Some((word, rest)) = next_token(line) else {
        return Some(true);
    };
    if next_token(rest).is_some() {
        return None;
    }
    if is_word(b"coerce", word) {
        Some(true)
    } else if is_word(b"strict", word) {
        Some(false)
    } else {
        None
    }
}

/// What follows `array`: a name, the name of its home, its kind and its length.
fn array_of(line: &[u8]) -> Option<Statement<'_>>
    ensures { result ≡ array_of (tokens_of line.now) }
{
    let (token, rest) = next_token(line)?;
    let (home_token, rest) = next_token(rest)?;
    let name = name_of(token)?;
    let home = name_of(home_token)?;
    let (kind, len) = shape_of(rest)?;
    Some(Statement::Array(name, home, kind, len))
}

/// A kind, its width where it has one, and a length.
fn shape_of(line: &[u8]) -> Option<(KindTerm, Option<i64>)>
    ensures { result ≡ shape_of (tokens_of line.now) }
{
    let (word, rest) = next_token(line)?;
    let (number, rest) = next_token(rest)?;
    let Some((len, rest)) = next_token(rest) else {
        return Some((kind_alone(word)?, number_of(number)?));
    };
    if next_token(rest).is_some() {
        return None;
    }
    let width = number_of(number)?;
    Some((kind_wide(word, width)?, number_of(len)?))
}

/// A kind without a width.
fn kind_alone(word: &[u8]) -> Option<KindTerm>
    ensures { result ≡ kind_alone word.now }
{
    if is_word(b"str", word) {
        Some(KindTerm::Str)
    } else if is_word(b"int", word) {
        Some(KindTerm::Int)
    } else if is_word(b"bool", word) {
        Some(KindTerm::Bool)
    } else {
        None
    }
}

/// A kind with a width.
fn kind_wide(word: &[u8], width: Option<i64>) -> Option<KindTerm>
    ensures { result ≡ kind_wide word.now width }
{
    if is_word(b"bytes", word) {
        Some(KindTerm::Bytes(width))
    } else if is_word(b"fixed", word) {
        Some(KindTerm::Fixed(width))
    } else {
        None
    }
}

/// What follows `version`: the number 2, spelled so.
fn version_of<'a>(line: &[u8]) -> Option<Statement<'a>>
    ensures { result ≡ version_of (tokens_of line.now) }
{
    let (number, rest) = next_token(line)?;
    if next_token(rest).is_some() || !is_word(b"2", number) {
        return None;
    }
    Some(Statement::Version)
}

/// What follows a call's word, by its entry in the table.
fn call_of<'a>(
    alloc: Global,
    scratch: &mut Vec<u8>,
    op: Op,
    line: &'a [u8],
) -> Result<Option<Statement<'a>>, Memory>
    ensures { IfOk result (λ s. s ≡ call_of op (tokens_of line.now)) }
{
    let form = op.form();
    let Some((front, rest)) = front_of(form.into, line) else {
        return Ok(None);
    };
    let Some((operands, rest)) = operands_of(alloc, scratch, op, rest)? else {
        return Ok(None);
    };
    let Some(out) = behind_of(form.into, front, rest) else {
        return Ok(None);
    };
    Ok(Some(Statement::Call(Line { op, operands, out })))
}

/// An output in front of the operands, and what follows it.
fn front_of(into: Into, line: &[u8]) -> Option<(Option<ViewTerm<'_>>, &[u8])>
    ensures { option_map (λ x. (x.0, tokens_of x.1.now)) result ≡ front_of into (tokens_of line.now) }
{
    match into {
        Into::Never | Into::May | Into::Must => Some((None, line)),
        Into::First => {
            let (token, rest) = next_token(line)?;
            let out = view_of(token)?;
            Some((Some(out), rest))
        }
    }
}

/// The operands of a call, with or without those that may be left out, and what follows them.
fn operands_of<'a>(
    alloc: Global,
    scratch: &mut Vec<u8>,
    op: Op,
    line: &'a [u8],
) -> Result<Option<(Sequence<Term<'a>>, &'a [u8])>, Memory>
    ensures { IfOk result (λ r. option_map (λ x. (x.0, tokens_of x.1.now)) r ≡ operands_of op (tokens_of line.now)) }
{
    let form = op.form();
    let mut terms = Sequence::new(alloc);
    let Some(rest) = terms_of(alloc, scratch, &mut terms, form.needs, line)? else {
        return Ok(None);
    };
    if is_over(rest) {
        push_numbers(alloc, &mut terms, form.defaults)?;
        return Ok(Some((terms, rest)));
    }
    match terms_of(alloc, scratch, &mut terms, form.may, rest)? {
        Some(rest) => Ok(Some((terms, rest))),
        None => Ok(None),
    }
}

/// Puts numbers behind operands, which stand for those that are left out.
fn push_numbers(
    alloc: Global,
    terms: &mut Sequence<Term<'_>>,
    numbers: &[i64],
) -> Result<(), Memory>
    ensures { OnOk result (terms.new ≡ terms.old ++ left_out numbers.now) }
{
    for number in numbers {
        let one = vec![in alloc; *number]?;
        terms.push(Term::List(Some(Items::Ints(IntList::from_vec(one)))))?;
    }
    Ok(())
}

/// Whether no token is left, or the word `into` comes next.
fn is_over(line: &[u8]) -> bool
    ensures { result ≡ is_over (tokens_of line.now) }
{
    match next_token(line) {
        Some((word, _)) => is_word(b"into", word),
        None => true,
    }
}

/// Puts operands of these sorts behind others, and answers what follows them.
fn terms_of<'a>(
    alloc: Global,
    scratch: &mut Vec<u8>,
    terms: &mut Sequence<Term<'a>>,
    needs: &[Sort],
    line: &'a [u8],
) -> Result<Option<&'a [u8]>, Memory>
    ensures { IfOk result (λ r. option_map (λ x. (terms.new, tokens_of x.now)) r ≡ behind_terms terms.old (terms_of needs.now (tokens_of line.now))) }
{
    let mut rest = line;
    'sorts: for sort in needs {
        let Some((token, others)) = next_token(rest) else {
            return Ok(None);
        };
        let Some(term) = term_of(alloc, scratch, *sort, token)? else {
            return Ok(None);
        };
        terms.push(term)?;
        rest = others;
    }
    Ok(Some(rest))
}

/// A token as an operand of this sort.
fn term_of<'a>(
    alloc: Global,
    scratch: &mut Vec<u8>,
    sort: Sort,
    token: &'a [u8],
) -> Result<Option<Term<'a>>, Memory>
    ensures { IfOk result (λ t. t ≡ term_of sort token.now) }
{
    match sort {
        Sort::View => match view_of(token) {
            Some(view) => Ok(Some(Term::View(view))),
            None => Ok(None),
        },
        Sort::Literal => match list_of(alloc, scratch, token)? {
            Some(items) => Ok(Some(Term::List(items))),
            None => Ok(None),
        },
        Sort::Texts | Sort::Numbers => list_or_view(alloc, scratch, token),
        Sort::Fill => match list_of(alloc, scratch, token)? {
            Some(items) => Ok(Some(Term::Fill(items))),
            None => Ok(None),
        },
        Sort::Descr => match name_of(token) {
            Some(name) => Ok(Some(Term::Descr(name))),
            None => Ok(None),
        },
    }
}

/// A token that is a list, or else a view.
fn list_or_view<'a>(
    alloc: Global,
    scratch: &mut Vec<u8>,
    token: &'a [u8],
) -> Result<Option<Term<'a>>, Memory>
    ensures { IfOk result (λ t. t ≡ list_or_view (list_of token.now) token.now) }
{
    if let Some(items) = list_of(alloc, scratch, token)? {
        return Ok(Some(Term::List(items)));
    }
    match view_of(token) {
        Some(view) => Ok(Some(Term::View(view))),
        None => Ok(None),
    }
}

/// An output behind the operands, where it stands there, and nothing else.
fn behind_of<'a>(
    into: Into,
    front: Option<ViewTerm<'a>>,
    line: &'a [u8],
) -> Option<Option<ViewTerm<'a>>>
    ensures { result ≡ behind_of into front.entry (tokens_of line.now) }
{
    match into {
        Into::Never | Into::First => match next_token(line) {
            None => Some(front),
            Some(_) => None,
        },
        Into::May => may_into(line),
        Into::Must => into_of(line),
    }
}

/// Nothing, or the word `into` and an output.
fn may_into(line: &[u8]) -> Option<Option<ViewTerm<'_>>>
    ensures { result ≡ may_into (tokens_of line.now) }
{
    match next_token(line) {
        None => Some(None),
        Some(_) => into_of(line),
    }
}

/// The word `into` and an output, and nothing behind it.
fn into_of(line: &[u8]) -> Option<Option<ViewTerm<'_>>>
    ensures { result ≡ into_of (tokens_of line.now) }
{
    let (word, rest) = next_token(line)?;
    let (token, rest) = next_token(rest)?;
    if next_token(rest).is_some() || !is_word(b"into", word) {
        return None;
    }
    let out = view_of(token)?;
    Some(Some(out))
}
