//! How labels are derived where there is a choice.

/// How labels are derived.
#[derive(Clone, Copy)]
pub(crate) struct Manner {
    /// Whether a reach has the label's pattern where neither that nor the match's fits the other,
    /// and nothing else decides; else it has the match's.
    pub prefers_label: bool,
    /// Whether all that enters through a source with a prefix is labelled as `**`.
    pub widest: bool,
}
