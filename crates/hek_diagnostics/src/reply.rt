//! The reply of a line of a trace.
use crate::choice::Choice;
use crate::finding::{Finding, Hint};
use crate::numbers::Role;
use crate::sentence::Listed;
use crate::token::{Tokens, trace_number, trace_pair};
use crate::vocabulary::Vocabulary;
use crate::words::Word;
use hek_rules::{Cause, Refusal, ReplyForm, ReplyOperands};

/// The words inside replies.
const CYCLE: Vocabulary = Vocabulary::These(&["cycle"]);

const WRITER: Vocabulary = Vocabulary::These(&["writer"]);

/// What is wrong with the reply at the end of a line; otherwise the last word.
pub(crate) fn judge_reply<'t>(tokens: &mut Tokens<'t>) -> Result<Word<'t>, Finding<'t>> {
    let replies = Listed::OneOf(Choice::Replies);
    let first = tokens
        .word("the line ends where a reply is wanted")
        .map_err(|finding| finding.or_wanting("a reply: ^", replies))?;
    if !Vocabulary::Replies.has(first.text) {
        return Err(
            Finding::at(first, "no reply begins with @")
                .wanting_words(Vocabulary::Replies)
                .hinting(Hint::Among(Vocabulary::Replies)),
        );
    }
    let (form, word) = judge_form(tokens, first)?;
    let last = judge_operands(tokens, form, word)?;
    tokens.end(last)?;
    Ok(last)
}

/// The form of a reply, by its first word, which begins one, and by the second if the form has two; and the last of
/// these words.
fn judge_form<'t>(
    tokens: &mut Tokens<'t>,
    first: Word<'t>,
) -> Result<(ReplyForm, Word<'t>), Finding<'t>> {
    let mut ahead = *tokens;
    let next = ahead.next();
    let mut found = ReplyForm::Began;
    for form in ReplyForm::ALL {
        if first.is(form.first_word()) {
            found = form;
            match form.second_word() {
                None => return Ok((form, first)),
                Some(second) if next.is(second) => return Ok((form, tokens.next())),
                Some(_) => {}
            }
        }
    }
    let word = one_of(tokens, Vocabulary::Behind(found))?;
    Ok((found, word))
}

/// The words after those of a form; `word` is the last of these.
fn judge_operands<'t>(
    tokens: &mut Tokens<'t>,
    form: ReplyForm,
    word: Word<'t>,
) -> Result<Word<'t>, Finding<'t>> {
    match form.operands() {
        ReplyOperands::Nothing => Ok(word),
        ReplyOperands::Value => judge_number(tokens, Role::Value),
        ReplyOperands::Time
        | ReplyOperands::Count
        | ReplyOperands::Version
        | ReplyOperands::Bucket
        | ReplyOperands::Txn => judge_number(tokens, Role::Other),
        ReplyOperands::Cause => judge_cause(tokens),
        ReplyOperands::Refusal => judge_refusal(tokens),
        ReplyOperands::VersionAndWriter => judge_read(tokens),
        ReplyOperands::TxnAndCycle => judge_victim(tokens),
        ReplyOperands::Pairs => judge_rows(tokens, word),
    }
}

fn judge_number<'t>(tokens: &mut Tokens<'t>, role: Role) -> Result<Word<'t>, Finding<'t>> {
    let word = tokens.word("the line ends where a number is wanted")?;
    trace_number(word, role)?;
    Ok(word)
}

/// A word, which must be one of these.
fn one_of<'t>(tokens: &mut Tokens<'t>, words: Vocabulary) -> Result<Word<'t>, Finding<'t>> {
    let word = tokens
        .word("the line ends inside its reply")
        .map_err(|finding| finding.or_wanting("^", Listed::Words(words)))?;
    if words.has(word.text) {
        return Ok(word);
    }
    Err(
        Finding::at(word, "no reply goes on with @")
            .wanting_words(words)
            .hinting(Hint::Among(words)),
    )
}

fn judge_rows<'t>(tokens: &mut Tokens<'t>, first: Word<'t>) -> Result<Word<'t>, Finding<'t>> {
    let mut last = first;
    for _ in 0..usize::MAX {
        if tokens.is_over() {
            break;
        }
        last = tokens.word("")?;
        trace_pair(last)?;
    }
    Ok(last)
}

/// A version, and the transaction that waited for it, if there is one.
fn judge_read<'t>(tokens: &mut Tokens<'t>) -> Result<Word<'t>, Finding<'t>> {
    let last = judge_number(tokens, Role::Other)?;
    if tokens.is_over() {
        return Ok(last);
    }
    one_of(tokens, WRITER)?;
    judge_number(tokens, Role::Other)
}

fn judge_victim<'t>(tokens: &mut Tokens<'t>) -> Result<Word<'t>, Finding<'t>> {
    judge_number(tokens, Role::Other)?;
    let mut last = one_of(tokens, CYCLE)?;
    for _ in 0..usize::MAX {
        if tokens.is_over() {
            break;
        }
        last = judge_number(tokens, Role::Other)?;
    }
    Ok(last)
}

fn judge_cause<'t>(tokens: &mut Tokens<'t>) -> Result<Word<'t>, Finding<'t>> {
    let causes = Vocabulary::Causes;
    let word = tokens
        .word("the line ends where a cause is wanted")
        .map_err(|finding| finding.or_wanting("^", Listed::Words(causes)))?;
    if Cause::named(word.text).is_some() {
        return Ok(word);
    }
    Err(
        Finding::at(word, "no transaction is aborted for @")
            .wanting_words(causes)
            .hinting(Hint::Among(causes)),
    )
}

fn judge_refusal<'t>(tokens: &mut Tokens<'t>) -> Result<Word<'t>, Finding<'t>> {
    let refusals = Listed::OneOf(Choice::Refusals);
    let word = tokens
        .word("the line ends where a refusal is wanted")
        .map_err(|finding| finding.or_wanting("^", refusals))?;
    if Refusal::named(word.text).is_some() {
        let form = "`refused` wants a number before @";
        return Err(Finding::at(word, form).wanting_listed("^", refusals));
    }
    let count = trace_number(word, Role::Other)?;
    let Some(wanted) = refusal_numbered(count) else {
        let form = "no refusal has number @";
        return Err(Finding::at(word, form).wanting_listed("^", refusals));
    };
    let name = tokens
        .word("the line ends where the name of a refusal is wanted")
        .map_err(|finding| finding.or_wanting("^", Listed::Word(wanted.name())))?;
    if name.is(wanted.name()) {
        return Ok(name);
    }
    Err(other_name(name, word, wanted))
}

fn refusal_numbered(count: u64) -> Option<Refusal> {
    for refusal in Refusal::ALL {
        if refusal.number() == count {
            return Some(refusal);
        }
    }
    None
}

/// A name that isn't that of the refusal's number.
fn other_name<'t>(name: Word<'t>, word: Word<'t>, wanted: Refusal) -> Finding<'t> {
    let finding = match Refusal::named(name.text) {
        None => Finding::at(name, "the refusal & is not called @"),
        Some(other) => Finding::at(name, "the refusal & is called ^, and @ is the name of $")
            .with_number(other.number())
            .with_known(wanted.name()),
    };
    finding.with_other(word.text).wanting(wanted.name())
}
