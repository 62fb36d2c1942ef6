//! Where a section or a parameter stands.

/// The types of outputs that a relay has.
#[derive(Clone, Copy)]
pub(crate) enum OutputKind {
    Forward,
    File,
    Copy,
    Relabel,
    Null,
}

// A type of outputs, by its name.
struct Output {
    name: &'static str,
    kind: OutputKind,
}

static OUTPUTS: [Output; 5] = [
    Output {
        name: "forward",
        kind: OutputKind::Forward,
    },
    Output {
        name: "file",
        kind: OutputKind::File,
    },
    Output {
        name: "copy",
        kind: OutputKind::Copy,
    },
    Output {
        name: "relabel",
        kind: OutputKind::Relabel,
    },
    Output {
        name: "null",
        kind: OutputKind::Null,
    },
];

impl OutputKind {
    /// The type of this name, if a relay has it.
    pub fn named(name: &[u8]) -> Option<OutputKind> {
        for output in &OUTPUTS {
            if output.name.as_bytes() == name {
                return Some(output.kind);
            }
        }
        None
    }
}

/// What a section is, by its name, its type and where it stands.
#[derive(Clone, Copy)]
pub(crate) enum Place {
    /// The whole configuration.
    Top,
    /// The parameters outside every section.
    Outside,
    /// What is taken over as it stands, with all that is in it.
    Passed,
    Source,
    Label,
    /// A match or a store of this type.
    Output(OutputKind),
    Server,
    Security,
    Buffer,
    /// What is left out, with all that is in it.
    LeftOut,
}

/// A section that is open.
#[derive(Clone, Copy)]
pub(crate) struct Spot {
    pub place: Place,
    /// How many sections of the adapted configuration are open round what stands in it.
    pub depth: usize,
    /// Whether a `<buffer>` stands in it.
    pub has_buffer: bool,
}
