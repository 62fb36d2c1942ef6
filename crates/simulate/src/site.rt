//! A relay of the network: its folders, what was told of its chunks, and its parts while it is
//! open.

use crate::chunks::{Chunks, Name};
use crate::disk::{Devices, Stop};
use crate::judge::Judge;
use crate::link::{Link, hang_up};
use crate::machine::Machine;
use crate::parts::{Failed, Parts, Settings, SinkContent};
use ack_receipt::Evidence;
use std::alloc::{AllocError, Global};
use std::sync::Wait;
use std::time::Clock;

/// A call that was refused.
#[derive(Clone, Copy)]
pub enum Refusal {
    /// The delivery of the message of this number.
    Message(u64),
    /// Another, said in words.
    Other(&'static str),
}

/// A relay, with what was told of its chunks.
pub type Site<P> = SiteOf<P, Chunks>;

/// The same with anything that is noted of its chunks: what looks at another part of it isn't
/// proved over the notes.
pub struct SiteOf<P: Parts, N> {
    pub number: u32,
    folders: P::Folders,
    pub chunks: N,
    pub open: Option<P>,
    // A call failed behind which it has to be opened again, which is wrong where no device did
    // fail.
    refusal: Option<Refusal>,
    // Whether a device of it may fail.
    is_failing: bool,
    /// The chunk whose write to a sink failed last.
    pub torn: Option<Name>,
}

impl<P: Parts, N> SiteOf<P, N> {
    /// How many buffers it has.
    pub fn count_buffers(&self) -> usize {
        match &self.open {
            Some(open) => open.count_buffers(),
            None => 0,
        }
    }

    /// What is said of the output of a buffer.
    pub fn settings(&self, buffer: usize) -> Settings {
        match &self.open {
            Some(open) => open.settings(buffer),
            None => Settings::NONE,
        }
    }

    /// The evidence of a buffer's sink, if it has one that carries the chunk.
    pub fn carry<R: Wait + Clock>(
        &self,
        rt: &R,
        buffer: usize,
        hold: &P::Hold,
    ) -> Option<Evidence<Global>> {
        match &self.open {
            Some(open) => open.carry(rt, buffer, hold),
            None => None,
        }
    }

    /// Its end of a connection goes, if it is open.
    pub fn hang_up<R: Wait>(&mut self, rt: &R, link: &mut Link<P::Client, P::Server>) {
        if let Some(open) = &mut self.open {
            hang_up(rt, open, link);
        }
    }

    /// The oldest queued chunk of a buffer goes, where its output drops the oldest, and no device
    /// may fail.
    pub fn drop_oldest<R: Wait>(&self, rt: &R, buffer: usize) -> Option<u64> {
        match &self.open {
            Some(open) if !self.is_failing => open.drop_oldest(rt, buffer),
            _ => None,
        }
    }

    /// The write of a chunk to its sink was refused.
    pub fn tear(&mut self, name: Name) {
        self.torn = Some(name);
        self.refuse(Refusal::Other("a sink can't be written"));
    }

    /// A call was refused. Where no device has failed, this is wrong.
    pub fn refuse(&mut self, refusal: Refusal) {
        if self.refusal.is_none() {
            self.refusal = Some(refusal);
        }
    }

    /// Whether it has to be opened again: a call was refused, or a device or a journal failed.
    pub fn is_refusing(&self) -> bool {
        match &self.open {
            Some(open) => self.refusal.is_some() || open.has_fault(),
            None => self.refusal.is_some(),
        }
    }

    /// Opens it over such devices; `false` where it doesn't open. Then its folders are as that left
    /// them.
    pub fn open<R: Wait>(
        &mut self,
        rt: &R,
        alloc: Global,
        devices: Devices,
    ) -> Result<bool, AllocError> {
        self.is_failing = devices.may_fail();
        match P::open(alloc, &mut self.folders, devices)? {
            Some(open) => {
                put_open(rt, &mut self.open, open);
                Ok(true)
            }
            None => Ok(false),
        }
    }

    /// What a stop leaves of its folders, while it isn't open.
    pub fn stop_folders(&self, stop: Stop) {
        P::stop_folders(&self.folders, stop);
    }

    /// Stops it, and says what its sinks hold then, all of it synced; `None` where one can't be
    /// read.
    pub fn stop<R: Wait>(
        &mut self,
        rt: &R,
        alloc: Global,
        stop: Stop,
    ) -> Result<Option<Vec<SinkContent>>, AllocError> {
        let Some(open) = self.open.take() else {
            return Ok(None);
        };
        let mut failed = Failed {
            buffer: false,
            device: false,
        };
        let content = open.close(rt, alloc, stop, &mut failed)?;
        if failed.buffer {
            self.refuse(Refusal::Other("a buffer fails"));
        }
        if failed.device {
            self.refusal = None;
        }
        Ok(content)
    }

    /// Stops it, whatever its sinks hold.
    pub fn stop_unseen<R: Wait>(
        &mut self,
        rt: &R,
        alloc: Global,
        stop: Stop,
    ) -> Result<(), AllocError> {
        let _ = self.stop(rt, alloc, stop)?;
        Ok(())
    }

    /// What was refused before the last stop without a failure of a device is wrong.
    pub fn tell_refusal<M: Machine>(
        &mut self,
        alloc: Global,
        judge: &mut Judge<M>,
    ) -> Result<(), AllocError> {
        match self.refusal.take() {
            Some(refusal) => fail_by(alloc, judge, refusal),
            None => Ok(()),
        }
    }
}

impl<P: Parts, N: Drop> SiteOf<P, N> {
    /// A relay with this configuration that was never open.
    pub fn new(alloc: Global, number: u32, conf: &[u8], chunks: N) -> Result<Self, AllocError> {
        Ok(SiteOf {
            number,
            folders: P::new_folders(alloc, number, conf)?,
            chunks,
            open: None,
            refusal: None,
            is_failing: false,
            torn: None,
        })
    }

    /// Ends it.
    pub fn end<R: Wait>(self, rt: &R) {
        let SiteOf {
            number: _,
            folders: _,
            chunks: _,
            open,
            refusal: _,
            is_failing: _,
            torn: _,
        } = self;
        if let Some(open) = open {
            open.end(rt);
        }
    }
}

// This was refused, which is wrong.
fn fail_by<M: Machine>(
    alloc: Global,
    judge: &mut Judge<M>,
    refusal: Refusal,
) -> Result<(), AllocError> {
    match refusal {
        Refusal::Message(number) => judge.fail_message(number, "is refused"),
        Refusal::Other(what) => {
            judge.fail(String::from_str(alloc, what)?);
            Ok(())
        }
    }
}

// These are the parts of a relay from now on; others that it had end.
fn put_open<R: Wait, P: Parts>(rt: &R, parts: &mut Option<P>, open: P) {
    if let Some(other) = parts.replace(open) {
        other.end(rt);
    }
}
