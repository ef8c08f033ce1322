//! Kinds of replies, as `break reply` names them: by the first word of the printed reply, or by its first two.
use hek_rules::{Cause, Reply, ReplyForm, ReplyOperands};

/// A kind of replies.
#[derive(Clone, Copy)]
pub(crate) enum ReplyKind {
    /// Those that begin with the first word of a form.
    First(ReplyForm),
    /// Those of a form with two words.
    Form(ReplyForm),
    /// Those that say that a transaction aborted of a cause.
    Aborted(Cause),
}

/// The kind of replies that begin with a word, or with two.
pub(crate) fn kind_named(word: &[u8], second: Option<&[u8]>) -> Option<ReplyKind> {
    for form in ReplyForm::ALL {
        if word == form.first_word().as_bytes() {
            if let Some(kind) = kind_of(form, second) {
                return Some(kind);
            }
        }
    }
    None
}

/// The kind of replies that begin with the first word of a form and with a second word, if one is given.
fn kind_of(form: ReplyForm, second: Option<&[u8]>) -> Option<ReplyKind> {
    let Some(second) = second else {
        return Some(ReplyKind::First(form));
    };
    if form.operands() == ReplyOperands::Cause {
        let cause = Cause::named(second)?;
        return Some(ReplyKind::Aborted(cause));
    }
    match form.second_word() {
        Some(word) if second == word.as_bytes() => Some(ReplyKind::Form(form)),
        _ => None,
    }
}

impl ReplyKind {
    /// The words of the kind; the second is empty if it has one alone.
    pub(crate) fn words(self) -> (&'static str, &'static str) {
        match self {
            ReplyKind::First(form) => (form.first_word(), ""),
            ReplyKind::Form(form) => (form.first_word(), form.second_word().unwrap_or("")),
            ReplyKind::Aborted(cause) => (ReplyForm::Aborted.first_word(), cause.word()),
        }
    }

    /// Whether a reply is of the kind.
    pub(crate) fn has(self, reply: &Reply) -> bool {
        let form = reply.form();
        match self {
            ReplyKind::First(kind) => kind.first_word() == form.first_word(),
            ReplyKind::Form(kind) => kind == form,
            ReplyKind::Aborted(kind) => matches!(reply, Reply::Aborted(cause) if *cause == kind),
        }
    }
}
