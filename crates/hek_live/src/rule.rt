//! The rule that each step keeps, and the kinds of step.
use crate::view::View;
use atomic_table::{Join, Play, Split, TableRule};
use hek_rules::LockChange;

/// The rule of the live words.
pub struct Counted;

impl TableRule<LockChange, View, usize> for Counted {
    ghost use Rattle.hek_live.specs.Tokens.{maker};
    ghost use Rattle.hek_live.specs.Rule.{Stands};

    ghost holds = { Stands };

    ghost first = { λ _. maker };
}

pub(crate) struct Look;

impl Play<LockChange, View> for Look {
    ghost use Rattle.hek_live.specs.Rule.{Loaded};

    ghost then = { Loaded };
}

pub(crate) struct Swap;

impl Play<LockChange, View> for Swap {
    ghost use Rattle.hek_live.specs.Rule.{Exchanged};

    ghost then = { Exchanged };
}

pub(crate) struct Newcomer;

impl Split<View> for Newcomer {
    ghost use Rattle.hek_live.specs.Tokens.{newcomer, split_from};

    ghost left = { split_from };

    ghost right = { λ _. newcomer };
}

impl Join<View> for Newcomer {
    ghost use Rattle.hek_live.specs.Tokens.{newcomer};

    ghost both = { λ v _. v };

    ghost spent = { newcomer };
}
