//! Sinks, by their files.

ghost use Rattle.std.specs.Prelude.{◌≡◌};
ghost use Rattle.folder_counts.specs.Limits.{is_sink_sound};

use crate::counts::SinkCounts;
use crate::parts::Part;
use std::alloc::AllocError;
use std::marker::Model;

/// A sink, by its files.
#[derive(Drop)]
pub struct Sink<'a> {
    path: &'a str,
    newest: &'a str,
    number: u32,
    counts: SinkCounts,
}

impl<'a> Model for Sink<'a> {
    ghost use Rattle.folder_counts.specs.Views.{SinkView};

    ghost Value = { SinkView };

    ghost view = { λ s. record {
      path = s.path.now;
      newest = s.newest.now;
      number = s.number;
      counts = s.counts;
    } };
}

impl<'a> Sink<'a> {
    /// The sink of this path, of whose files this one, with this number, is the newest, and which
    /// count to this.
    pub(crate) fn new(path: &'a str, newest: &'a str, number: u32, counts: SinkCounts) -> Sink<'a>
        ensures { result ≡ record {
          path = path.now;
          newest = newest.now;
          number = number;
          counts = counts;
        } }
    {
        Sink {
            path,
            newest,
            number,
            counts,
        }
    }

    /// What the names of its files begin with.
    pub fn path(&self) -> &'a str
        ensures { result.now ≡ self.now.path }
    {
        self.path
    }

    /// The name of its newest file.
    pub fn newest(&self) -> &'a str
        ensures { result.now ≡ self.now.newest }
    {
        self.newest
    }

    /// What its files count to.
    pub fn counts(&self) -> SinkCounts
        ensures { result ≡ self.now.counts }
    {
        self.counts
    }

    /// Whether all its files are read, and none is damaged.
    pub fn is_sound(&self) -> bool
        ensures { result ≡ is_sink_sound self.now }
    {
        self.counts.damaged == 0 && self.counts.unread == 0
    }
}

impl<'a> Part for Sink<'a> {
    ghost use Rattle.folder_counts.specs.Groups.{joined};

    ghost path_of = { λ s. s.path };

    ghost both = { joined };

    fn path(&self) -> &str {
        self.path
    }

    fn joined(&self, next: &Sink<'a>) -> Result<Sink<'a>, AllocError> {
        let counts = self.counts.plus(next.counts)?;
        if self.number < next.number {
            return Ok(Sink::new(self.path, next.newest, next.number, counts));
        }
        Ok(Sink::new(self.path, self.newest, self.number, counts))
    }
}
