//! Steps as lines of a text, with what some of them mean in front.

use crate::pieces::{Piece, put_pieces};
use crate::site::Texts;
use loss_rules::line_of;
use loss_search::put_step;
use plan_lines::Plan;
use relay_conf::Output;
use relay_net::server;
use std::alloc::{AllocError, Allocator};
use step_lines::{ChunkName, Step};

/// What is told of: a plan, its texts, and a list of steps in its network.
#[derive(Drop)]
pub(crate) struct Story<'a, A: Allocator> {
    pub alloc: A,
    pub plan: &'a Plan<A>,
    pub texts: &'a Texts<'a, A>,
    pub steps: &'a [Step<A>],
}

impl<A: Allocator + Copy> Story<'_, A> {
    /// Adds a line for each step, and lines that begin with `#`.
    pub fn put(&self, out: &mut Vec<u8, A>) -> Result<(), AllocError> {
        for (at, step) in self.steps.iter().enumerate() {
            self.put_meaning(out, at, step)?;
            put_step(self.alloc, out, step)?;
        }
        Ok(())
    }

    // Adds what the step at this place means, where a reader may wonder.
    fn put_meaning(
        &self,
        out: &mut Vec<u8, A>,
        at: usize,
        step: &Step<A>,
    ) -> Result<(), AllocError> {
        match step {
            Step::Send { client, .. } => self.put_send(out, *client as usize),
            Step::Ack { .. } => self.put_ack(out, at),
            Step::Foreign { .. } => put_foreign(out),
            Step::Forward { chunk, server } => self.put_forward(out, chunk, *server as usize),
            Step::Done { chunk } => self.put_done(out, chunk),
            Step::Discard { chunk } => self.put_discard(out, chunk),
            Step::Oldest { relay, buffer } => self.put_oldest(out, *relay, *buffer),
            Step::Restart { relay } => self.put_restart(out, *relay),
            _ => Ok(()),
        }
    }

    fn put_send(&self, out: &mut Vec<u8, A>, client: usize) -> Result<(), AllocError> {
        match self.plan.client_lines().get(client) {
            Some(line) => {
                let name = self.texts.plan_name;
                self.put_of_line(out, b"The client", *line, name, b" sends an event.")
            }
            None => Ok(()),
        }
    }

    // A delivery that was appended to nothing is acknowledged right behind its beginning.
    fn put_ack(&self, out: &mut Vec<u8, A>, at: usize) -> Result<(), AllocError> {
        match self.steps.get(at.saturating_sub(1)) {
            Some(Step::Begin { .. }) => put_note(
                out,
                b"No output takes the event, and it is acknowledged: nobody has it.",
            ),
            _ => Ok(()),
        }
    }

    fn put_forward(
        &self,
        out: &mut Vec<u8, A>,
        chunk: &ChunkName,
        number: usize,
    ) -> Result<(), AllocError> {
        let Some(output) = self.output(chunk.relay, chunk.buffer) else {
            return Ok(());
        };
        match server(output, number) {
            Some(receiver) => {
                let front = b"The chunk is sent to the server";
                let name = self.conf_name(chunk.relay);
                self.put_of_line(out, front, receiver.line, name, b".")
            }
            None => Ok(()),
        }
    }

    fn put_done(&self, out: &mut Vec<u8, A>, chunk: &ChunkName) -> Result<(), AllocError> {
        self.put_of_output(
            out,
            b"It doesn't arrive. The output",
            chunk.relay,
            chunk.buffer,
            b" asks for no acknowledgement, and lets the chunk go.",
        )
    }

    fn put_discard(&self, out: &mut Vec<u8, A>, chunk: &ChunkName) -> Result<(), AllocError> {
        self.put_of_output(
            out,
            b"The output",
            chunk.relay,
            chunk.buffer,
            b" doesn't retry for ever: the chunk is let go undelivered.",
        )
    }

    fn put_oldest(&self, out: &mut Vec<u8, A>, relay: u64, buffer: u64) -> Result<(), AllocError> {
        self.put_of_output(
            out,
            b"The buffer of the output",
            relay,
            buffer,
            b" is full: its oldest chunk makes room.",
        )
    }

    fn put_restart(&self, out: &mut Vec<u8, A>, relay: u64) -> Result<(), AllocError> {
        put_line(
            self.alloc,
            out,
            &[
                Piece::Text(b"Relay "),
                Piece::Number(relay),
                Piece::Text(b" stops and starts again: what its buffers in memory held is gone."),
            ],
        )
    }

    // Adds these words around the line of the output with this buffer of the relay with this
    // number, if there is one.
    fn put_of_output(
        &self,
        out: &mut Vec<u8, A>,
        front: &[u8],
        relay: u64,
        buffer: u64,
        end: &[u8],
    ) -> Result<(), AllocError> {
        match self.output(relay, buffer) {
            Some(output) => {
                let name = self.conf_name(relay);
                self.put_of_line(out, front, line_of(output), name, end)
            }
            None => Ok(()),
        }
    }

    // Adds these words around a line of the text with this name.
    fn put_of_line<'p>(
        &self,
        out: &mut Vec<u8, A>,
        front: &'p [u8],
        line: usize,
        name: &'p str,
        end: &'p [u8],
    ) -> Result<(), AllocError> {
        put_line(
            self.alloc,
            out,
            &[
                Piece::Text(front),
                Piece::Text(b" in line "),
                Piece::Number(line as u64),
                Piece::Text(b" of "),
                Piece::Text(name.as_bytes()),
                Piece::Text(end),
            ],
        )
    }

    // The output with this buffer of the relay with this number.
    fn output(&self, relay: u64, buffer: u64) -> Option<&Output<A>> {
        let net = self.plan.net();
        match net.place(relay) {
            Some(place) => net.output(place, buffer as usize),
            None => None,
        }
    }

    // The name of the configuration of the relay with this number.
    fn conf_name(&self, relay: u64) -> &str {
        match self.plan.net().place(relay) {
            Some(place) => self.texts.conf_name(place),
            None => "",
        }
    }
}

fn put_foreign<A: Allocator>(out: &mut Vec<u8, A>) -> Result<(), AllocError> {
    put_note(
        out,
        b"No relay of the plan has this address: whoever is there acknowledges the event.",
    )
}

/// Adds a line that says nothing to the machine: a heading and what is said under it.
pub(crate) fn put_headed<A: Allocator>(
    out: &mut Vec<u8, A>,
    heading: &[u8],
    text: &str,
) -> Result<(), AllocError> {
    put_joined(out, &[heading, b": ", text.as_bytes(), b"."])
}

/// Adds a line that says nothing to the machine.
pub(crate) fn put_note<A: Allocator>(out: &mut Vec<u8, A>, note: &[u8]) -> Result<(), AllocError> {
    put_joined(out, &[note])
}

/// Adds a line that says nothing to the machine, of these texts.
pub(crate) fn put_joined<A: Allocator>(
    out: &mut Vec<u8, A>,
    texts: &[&[u8]],
) -> Result<(), AllocError> {
    out.extend_from_slice(b"# ")?;
    for text in texts {
        out.extend_from_slice(text)?;
    }
    out.extend_from_slice(b"\n")
}

/// Adds a line that says nothing to the machine, of these pieces.
pub(crate) fn put_line<A: Allocator + Copy>(
    alloc: A,
    out: &mut Vec<u8, A>,
    pieces: &[Piece<'_>],
) -> Result<(), AllocError> {
    out.extend_from_slice(b"# ")?;
    put_pieces(alloc, out, pieces)?;
    out.extend_from_slice(b"\n")
}
