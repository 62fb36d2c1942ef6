//! What clients say to a relay, what they hear, and what is left of their messages.

// What a client writes, and what it hears then, and nothing more.
pub struct Words {
    pub written: &'static [u8],
    pub heard: &'static [u8],
}

// What each of two clients does before the relay is looked at again.
pub struct Round {
    pub one: Words,
    pub two: Words,
}

// A relay, how two clients speak to it, and how many parts are left of each of its deliveries.
pub struct Talk {
    pub relay: &'static str,
    pub rounds: &'static [Round],
    pub parts: &'static [usize],
}

// A client that writes nothing and hears nothing.
const SILENCE: Words = Words {
    written: b"",
    heard: b"",
};

// A message has a tag, an entry and a chunk, which its answer names. Three of them are in one
// write, the second client's as packed entries, as a courier sends them.
const APART_ROUNDS: [Round; 1] = [Round {
    one: Words {
        written: b"\x94\xa1\x61\x01\x80\x81\xa5chunk\xa2c1\x94\xa1\x61\x01\x80\x81\xa5chunk\xa2c2\x94\xa1\x61\x01\x80\x81\xa5chunk\xa2c3",
        heard: b"\x81\xa3ack\xa2c1\x81\xa3ack\xa2c2\x81\xa3ack\xa2c3",
    },
    two: Words {
        written: b"\x93\xa1\x62\xc4\x03\x92\x01\x80\x81\xa5chunk\xa2c4\x93\xa1\x62\xc4\x03\x92\x01\x80\x81\xa5chunk\xa2c5\x93\xa1\x62\xc4\x03\x92\x01\x80\x81\xa5chunk\xa2c6",
        heard: b"\x81\xa3ack\xa2c4\x81\xa3ack\xa2c5\x81\xa3ack\xa2c6",
    },
}];

/// Two clients send three messages of their own at once, which a copy stores in two buffers: that
/// of a sink, whose chunks are queued at once, and that of a server, whose chunks stay open.
pub static APART: Talk = Talk {
    relay: "<source>\n  @type forward\n  bind 127.0.0.1\n</source>\n<match **>\n  @type copy\n  <store>\n    @type file\n    path all\n    <buffer>\n      retry_forever true\n      flush_mode immediate\n    </buffer>\n  </store>\n  <store>\n    @type forward\n    require_ack_response true\n    <server>\n      host 127.0.0.1\n      port 1\n    </server>\n    <buffer>\n      retry_forever true\n    </buffer>\n  </store>\n</match>\n",
    rounds: &APART_ROUNDS,
    parts: &[2, 2, 2, 2, 2, 2],
};

const IN_TURN_ROUNDS: [Round; 2] = [
    Round {
        one: Words {
            written: b"\x94\xa1\x61\x01\x80\x81\xa5chunk\xa2c1",
            heard: b"\x81\xa3ack\xa2c1",
        },
        two: SILENCE,
    },
    Round {
        one: SILENCE,
        two: Words {
            written: b"\x94\xa1\x62\x01\x80\x81\xa5chunk\xa2c2",
            heard: b"",
        },
    },
];

/// The second client speaks once the first one was answered, and the buffer is full, which takes
/// five bytes of entries.
pub static IN_TURN: Talk = Talk {
    relay: "<source>\n  @type forward\n  bind 127.0.0.1\n</source>\n<match **>\n  @type file\n  path all\n  <buffer>\n    retry_forever true\n    total_limit_size 5\n  </buffer>\n</match>\n",
    rounds: &IN_TURN_ROUNDS,
    parts: &[1, 0],
};
