//! The sections and parameters of Fluentd, by the sections in which they stand, and what becomes of
//! each.

use crate::decision::Decision;
use crate::openings::{Becomes, Opening, Section};
use crate::place::Place;
use crate::rules::{Group, Inside, Renamed, Rule};

/// What may stand anywhere.
pub(crate) static ANYWHERE: [Group; 2] = [
    Group {
        names: &["@id", "@log_level"],
        rule: Rule::Kept,
    },
    Group {
        names: &["@include"],
        rule: Rule::Decided(Decision::Include),
    },
];

/// Names that have got an `@` since.
pub(crate) static OLD_NAMES: [Renamed; 3] = [
    Renamed {
        old: "type",
        new: "@type",
    },
    Renamed {
        old: "id",
        new: "@id",
    },
    Renamed {
        old: "log_level",
        new: "@log_level",
    },
];

/// What once stood in an output, and has since stood in its `<buffer>`.
pub(crate) static OLD_BUFFER: [Renamed; 14] = [
    Renamed {
        old: "buffer_type",
        new: "@type",
    },
    Renamed {
        old: "buffer_path",
        new: "path",
    },
    Renamed {
        old: "buffer_chunk_limit",
        new: "chunk_limit_size",
    },
    Renamed {
        old: "buffer_queue_limit",
        new: "queue_limit_length",
    },
    Renamed {
        old: "buffer_queue_full_action",
        new: "overflow_action",
    },
    Renamed {
        old: "num_threads",
        new: "flush_thread_count",
    },
    Renamed {
        old: "flush_interval",
        new: "flush_interval",
    },
    Renamed {
        old: "try_flush_interval",
        new: "flush_thread_interval",
    },
    Renamed {
        old: "queued_chunk_flush_interval",
        new: "flush_thread_burst_interval",
    },
    Renamed {
        old: "flush_at_shutdown",
        new: "flush_at_shutdown",
    },
    Renamed {
        old: "retry_wait",
        new: "retry_wait",
    },
    Renamed {
        old: "max_retry_wait",
        new: "retry_max_interval",
    },
    Renamed {
        old: "retry_limit",
        new: "retry_max_times",
    },
    Renamed {
        old: "disable_retry_limit",
        new: "retry_forever",
    },
];

/// What may stand where nothing may but what may anywhere.
pub(crate) static NOTHING: Inside = Inside {
    sections: &[],
    groups: &[],
};

/// The whole configuration.
pub(crate) static TOP: Inside = Inside {
    sections: &[
        Section {
            name: "",
            opening: Opening::Named(Becomes::Is(Place::Outside)),
        },
        Section {
            name: "source",
            opening: Opening::Source,
        },
        Section {
            name: "label",
            opening: Opening::Named(Becomes::Adapted(Place::Label)),
        },
        Section {
            name: "system",
            opening: Opening::Named(Becomes::Is(Place::Passed)),
        },
        Section {
            name: "worker",
            opening: Opening::Named(Becomes::Decided(Decision::Worker)),
        },
        Section {
            name: "match",
            opening: Opening::Output,
        },
        Section {
            name: "filter",
            opening: Opening::Named(Becomes::Decided(Decision::Filter)),
        },
    ],
    groups: &[],
};

/// A label.
pub(crate) static LABEL: Inside = Inside {
    sections: &[
        Section {
            name: "match",
            opening: Opening::Output,
        },
        Section {
            name: "filter",
            opening: Opening::Named(Becomes::Decided(Decision::Filter)),
        },
    ],
    groups: &[],
};

/// A source of type `forward`.
pub(crate) static SOURCE: Inside = Inside {
    sections: &[
        Section {
            name: "security",
            opening: Opening::Named(Becomes::Is(Place::Security)),
        },
        Section {
            name: "transport",
            opening: Opening::Transport,
        },
    ],
    groups: &[
        Group {
            names: &["@type", "port", "bind", "add_tag_prefix"],
            rule: Rule::Kept,
        },
        Group {
            names: &["@label"],
            rule: Rule::Target,
        },
        Group {
            names: &[
                "backlog",
                "linger_timeout",
                "resolve_hostname",
                "deny_keepalive",
                "send_keepalive_packet",
                "chunk_size_warn_limit",
                "blocking_timeout",
            ],
            rule: Rule::Harmless,
        },
        Group {
            names: &["tag"],
            rule: Rule::Decided(Decision::SourceTag),
        },
        Group {
            names: &[
                "source_address_key",
                "source_hostname_key",
                "source_host_key",
            ],
            rule: Rule::Decided(Decision::SourceKey),
        },
        Group {
            names: &["skip_invalid_event"],
            rule: Rule::HarmlessAt(&["false", "no"], Decision::SkipInvalidEvent),
        },
    ],
};

/// What an output sends to.
pub(crate) static SERVER: Inside = Inside {
    sections: &[],
    groups: &[
        Group {
            names: &["host", "port", "name", "weight", "standby"],
            rule: Rule::Kept,
        },
        Group {
            names: &["username", "password"],
            rule: Rule::Decided(Decision::Users),
        },
    ],
};

/// The shared key.
pub(crate) static SECURITY: Inside = Inside {
    sections: &[
        Section {
            name: "user",
            opening: Opening::Named(Becomes::Decided(Decision::Users)),
        },
        Section {
            name: "client",
            opening: Opening::Named(Becomes::Decided(Decision::Clients)),
        },
    ],
    groups: &[
        Group {
            names: &["self_hostname", "shared_key"],
            rule: Rule::Kept,
        },
        Group {
            names: &["user_auth"],
            rule: Rule::HarmlessAt(&["false", "no"], Decision::Users),
        },
        Group {
            names: &["allow_anonymous_source"],
            rule: Rule::HarmlessAt(&["true", "yes", ""], Decision::Clients),
        },
    ],
};

/// An output of type `forward`.
pub(crate) static FORWARD: Inside = Inside {
    sections: &[
        Section {
            name: "server",
            opening: Opening::Named(Becomes::Is(Place::Server)),
        },
        Section {
            name: "security",
            opening: Opening::Named(Becomes::Is(Place::Security)),
        },
        Section {
            name: "buffer",
            opening: Opening::Named(Becomes::Adapted(Place::Buffer)),
        },
        Section {
            name: "secondary",
            opening: Opening::Named(Becomes::Decided(Decision::Secondary)),
        },
        Section {
            name: "format",
            opening: Opening::Named(Becomes::Decided(Decision::Format)),
        },
        Section {
            name: "inject",
            opening: Opening::Named(Becomes::Decided(Decision::Inject)),
        },
    ],
    groups: &[
        Group {
            names: &["@type", "require_ack_response"],
            rule: Rule::Kept,
        },
        Group {
            names: &[
                "ack_response_timeout",
                "send_timeout",
                "recover_wait",
                "hard_timeout",
            ],
            rule: Rule::Time,
        },
        Group {
            names: &[
                "connect_timeout",
                "heartbeat_type",
                "heartbeat_interval",
                "phi_failure_detector",
                "phi_threshold",
                "expire_dns_cache",
                "dns_round_robin",
                "ignore_network_errors_at_startup",
                "verify_connection_at_startup",
                "keepalive",
                "keepalive_timeout",
                "slow_flush_log_threshold",
            ],
            rule: Rule::Harmless,
        },
        Group {
            names: &["time_as_integer"],
            rule: Rule::HarmlessAt(&["false", "no"], Decision::TimeAsInteger),
        },
        Group {
            names: &["transport"],
            rule: Rule::HarmlessAt(&["tcp"], Decision::Tls),
        },
        Group {
            names: &[
                "tls_version",
                "tls_ciphers",
                "tls_insecure_mode",
                "tls_allow_self_signed_cert",
                "tls_verify_hostname",
                "tls_cert_path",
                "tls_client_cert_path",
                "tls_client_private_key_path",
                "tls_client_private_key_passphrase",
            ],
            rule: Rule::Decided(Decision::Tls),
        },
        Group {
            names: &["compress"],
            rule: Rule::HarmlessAt(&["text"], Decision::Gzip),
        },
    ],
};

/// An output of type `file`.
pub(crate) static FILE: Inside = Inside {
    sections: &[
        Section {
            name: "buffer",
            opening: Opening::Named(Becomes::Adapted(Place::Buffer)),
        },
        Section {
            name: "secondary",
            opening: Opening::Named(Becomes::Decided(Decision::Secondary)),
        },
        Section {
            name: "format",
            opening: Opening::Named(Becomes::Decided(Decision::Format)),
        },
        Section {
            name: "inject",
            opening: Opening::Named(Becomes::Decided(Decision::Inject)),
        },
    ],
    groups: &[
        Group {
            names: &["@type"],
            rule: Rule::Kept,
        },
        Group {
            names: &["path"],
            rule: Rule::SinkPath,
        },
        Group {
            names: &[
                "append",
                "add_path_suffix",
                "path_suffix",
                "symlink_path",
                "symlink_path_use_relative",
                "recompress",
                "slow_flush_log_threshold",
                "timezone",
                "utc",
                "localtime",
                "time_slice_format",
                "time_slice_wait",
            ],
            rule: Rule::Harmless,
        },
        Group {
            names: &["compress"],
            rule: Rule::HarmlessAt(&["text"], Decision::Gzip),
        },
        Group {
            names: &["format"],
            rule: Rule::Decided(Decision::Format),
        },
    ],
};

/// An output of type `copy`.
pub(crate) static COPY: Inside = Inside {
    sections: &[Section {
        name: "store",
        opening: Opening::Output,
    }],
    groups: &[
        Group {
            names: &["@type"],
            rule: Rule::Kept,
        },
        Group {
            names: &["copy_mode", "deep_copy"],
            rule: Rule::Harmless,
        },
    ],
};

/// An output of type `relabel`.
pub(crate) static RELABEL: Inside = Inside {
    sections: &[],
    groups: &[
        Group {
            names: &["@type"],
            rule: Rule::Kept,
        },
        Group {
            names: &["@label"],
            rule: Rule::Target,
        },
    ],
};

/// An output of type `null`.
pub(crate) static NULL: Inside = Inside {
    sections: &[],
    groups: &[
        Group {
            names: &["@type"],
            rule: Rule::Kept,
        },
        Group {
            names: &["never_flush"],
            rule: Rule::Harmless,
        },
    ],
};

/// The buffer of an output.
pub(crate) static BUFFER: Inside = Inside {
    sections: &[],
    groups: &[
        Group {
            names: &["@type"],
            rule: Rule::BufferType,
        },
        Group {
            names: &["path"],
            rule: Rule::BufferPath,
        },
        Group {
            names: &[
                "flush_thread_count",
                "flush_at_shutdown",
                "retry_forever",
                "retry_randomize",
            ],
            rule: Rule::Kept,
        },
        Group {
            names: &["chunk_limit_size", "total_limit_size"],
            rule: Rule::Size,
        },
        Group {
            names: &[
                "flush_interval",
                "retry_wait",
                "retry_max_interval",
                "retry_timeout",
            ],
            rule: Rule::Time,
        },
        Group {
            names: &["retry_exponential_backoff_base", "retry_max_times"],
            rule: Rule::Number,
        },
        Group {
            names: &["flush_mode"],
            rule: Rule::FlushMode,
        },
        Group {
            names: &["retry_type"],
            rule: Rule::RetryType,
        },
        Group {
            names: &["overflow_action"],
            rule: Rule::Overflow,
        },
        Group {
            names: &[
                "timekey",
                "timekey_wait",
                "timekey_use_utc",
                "timekey_zone",
                "path_suffix",
                "chunk_limit_records",
                "queue_limit_length",
                "queued_chunks_limit_size",
                "chunk_full_threshold",
                "flush_thread_interval",
                "flush_thread_burst_interval",
                "delayed_commit_timeout",
                "disable_chunk_backup",
                "retry_secondary_threshold",
                "file_permission",
                "dir_permission",
            ],
            rule: Rule::Harmless,
        },
        Group {
            names: &["compress"],
            rule: Rule::HarmlessAt(&["text"], Decision::Gzip),
        },
    ],
};
