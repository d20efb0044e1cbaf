//! The results of calls.

/// How a call answered.
#[derive(Clone, Copy, Drop)]
pub(crate) enum CallOutcome {
    /// As it does if no memory is refused.
    Right,
    /// It reported that memory ran out and changed nothing; for events, at the one with this index.
    Refused(usize),
    /// In any other way.
    Wrong,
}

impl CallOutcome {
    /// Returns `Right` if the answer is the expected one, otherwise `Wrong`.
    pub(crate) fn right_if(is_expected: bool) -> CallOutcome {
        if is_expected {
            CallOutcome::Right
        } else {
            CallOutcome::Wrong
        }
    }

    /// Returns `Refused` if nothing else can be seen of the call, otherwise `Wrong`.
    pub(crate) fn refused_if(is_unchanged: bool) -> CallOutcome {
        if is_unchanged {
            CallOutcome::Refused(0)
        } else {
            CallOutcome::Wrong
        }
    }
}
