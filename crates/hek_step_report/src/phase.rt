//! The phases that events are for, in words.
use hek_why::Phase;

/// A phase, after "one that is".
pub(crate) fn phase_text(phase: Phase) -> &'static str {
    match phase {
        Phase::NotBegun => "not begun",
        Phase::Open => "active and not finished",
        Phase::Finished => "active and finished",
        Phase::Preparing => "preparing",
        Phase::Live => "active or preparing",
        Phase::Releasing => "preparing, committed or aborted",
        Phase::Over => "committed or aborted",
    }
}
