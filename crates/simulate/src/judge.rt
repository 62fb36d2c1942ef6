//! The machine as the judge of a run.

use crate::chunks::Name;
use crate::machine::Machine;
use crate::text::{put, put_number};
use std::alloc::{AllocError, Global};

/// The steps that the run was told as, in the form that a replay takes, and the network as the
/// machine has it behind them.
pub struct Judge<M: Machine> {
    alloc: Global,
    pub machine: M,
    pub lines: Vec<String>,
    messages: u64,
    deliveries: u64,
    wrong: Option<String>,
}

impl<M: Machine> Drop for Judge<M> {
    fn drop(self) {
        let Judge {
            alloc: _,
            machine: _,
            lines: _,
            messages: _,
            deliveries: _,
            wrong: _,
        } = self;
    }
}

impl<M: Machine> Judge<M> {
    /// Nothing was told yet.
    pub fn new(alloc: Global, machine: M) -> Judge<M> {
        Judge {
            alloc,
            machine,
            lines: Vec::new(alloc),
            messages: 0,
            deliveries: 0,
            wrong: None,
        }
    }

    /// The number of a message that was sent now.
    pub fn next_message(&mut self) -> u64 {
        let number = self.messages;
        self.messages = number.saturating_add(1);
        number
    }

    /// Takes the step by which a delivery of a message begins, and says the delivery's number.
    pub fn begin(&mut self, message: u64) -> Result<u64, AllocError> {
        self.tell_numbers("begin", &[message])?;
        let number = self.deliveries;
        self.deliveries = number.saturating_add(1);
        Ok(number)
    }

    /// What was found to be wrong first, if anything.
    pub fn wrong(&self) -> Option<&str> {
        match &self.wrong {
            Some(what) => Some(what.as_str()),
            None => None,
        }
    }

    /// This is wrong.
    pub fn fail(&mut self, what: String) {
        if self.wrong.is_none() {
            self.wrong = Some(what);
        }
    }

    /// This is wrong of a message.
    pub fn fail_message(&mut self, message: u64, what: &str) -> Result<(), AllocError> {
        self.fail_at("message", &[message], what)
    }

    /// This is wrong of a relay.
    pub fn fail_relay(&mut self, relay: u32, what: &str) -> Result<(), AllocError> {
        self.fail_at("relay", &[u64::from(relay)], what)
    }

    /// This is wrong of a relay's buffer.
    pub fn fail_buffer(&mut self, relay: u32, buffer: usize, what: &str) -> Result<(), AllocError> {
        self.fail_at("buffer", &[u64::from(relay), buffer as u64], what)
    }

    /// This is wrong of a chunk.
    pub fn fail_chunk(&mut self, name: Name, what: &str) -> Result<(), AllocError> {
        self.fail_at("chunk", &numbers_of(name), what)
    }

    /// This is wrong of what such numbers name.
    pub fn fail_at(&mut self, word: &str, numbers: &[u64], what: &str) -> Result<(), AllocError> {
        if self.wrong.is_none() {
            self.wrong = Some(said(self.alloc, word, numbers, what)?);
        }
        Ok(())
    }

    /// Takes a step with such numbers, and says at which place it is told.
    pub fn tell_numbers(&mut self, word: &str, numbers: &[u64]) -> Result<usize, AllocError> {
        self.tell(line(self.alloc, word, " ", numbers)?)
    }

    /// Takes a step of a chunk, and says at which place it is told.
    pub fn tell_chunk(&mut self, word: &str, name: Name) -> Result<usize, AllocError> {
        self.tell(line(self.alloc, word, "/", &numbers_of(name))?)
    }

    /// Takes a step of a chunk with a number behind its name.
    pub fn tell_chunk_with(
        &mut self,
        word: &str,
        name: Name,
        number: usize,
    ) -> Result<usize, AllocError> {
        let mut text = line(self.alloc, word, "/", &numbers_of(name))?;
        put_number(&mut text, " ", number as u64, "")?;
        self.tell(text)
    }

    /// Takes a step, and says at which place it is told.
    pub fn tell(&mut self, line: String) -> Result<usize, AllocError> {
        let (machine, wrong) = (&mut self.machine, &mut self.wrong);
        take(self.alloc, machine, wrong, line.as_str())?;
        let at = self.lines.len();
        self.lines.push(line)?;
        Ok(at)
    }

    /// A stop lost what the step at this place did: it is taken out.
    pub fn take_out(&mut self, at: usize) {
        if let Some(line) = self.lines.get_mut(at) {
            *line = String::new(self.alloc);
        }
    }

    /// Takes all steps again, from the beginning, without those that were taken out.
    pub fn begin_again(&mut self) -> Result<(), AllocError> {
        self.machine.begin_again(self.alloc);
        let (machine, wrong) = (&mut self.machine, &mut self.wrong);
        for line in &self.lines {
            take(self.alloc, machine, wrong, line.as_str())?;
        }
        Ok(())
    }
}

// The machine takes a step, where nothing is wrong so far.
fn take<M: Machine>(
    alloc: Global,
    machine: &mut M,
    wrong: &mut Option<String>,
    line: &str,
) -> Result<(), AllocError> {
    if wrong.is_some() {
        return Ok(());
    }
    if let Some(what) = machine.take(alloc, line) {
        *wrong = Some(format!(in alloc; "{what}: {line}")?);
    }
    Ok(())
}

// What is wrong of what such numbers name.
fn said(alloc: Global, word: &str, numbers: &[u64], what: &str) -> Result<String, AllocError> {
    let mut text = line(alloc, word, "/", numbers)?;
    put(&mut text, &[" ", what])?;
    Ok(text)
}

// The numbers in a chunk's name.
fn numbers_of(name: Name) -> [u64; 3] {
    [u64::from(name.relay), name.buffer as u64, name.serial]
}

// A word and such numbers, with this between them.
fn line(alloc: Global, word: &str, between: &str, numbers: &[u64]) -> Result<String, AllocError> {
    let mut text = String::from_str(alloc, word)?;
    let mut before = " ";
    for number in numbers {
        put_number(&mut text, before, *number, "")?;
        before = between;
    }
    Ok(text)
}
