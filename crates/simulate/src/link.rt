//! A connection on which one message is sent.

use crate::chunks::Name;
use crate::parts::{Client, Parts, Server};
use forward_core::Heard;
use std::alloc::{AllocError, Global};
use std::sync::Wait;

/// A connection: the session that sends, the relay that it goes to with its end, and what became of
/// the message so far.
pub struct Link<C, E> {
    /// The chunk that a worker has claimed and sends; none where a client sends.
    pub chunk: Option<Name>,
    pub message: u64,
    pub to: usize,
    pub source: usize,
    /// The whole message.
    pub bytes: Vec<u8>,
    /// Its entries, and whether it asks for an acknowledgement.
    pub entries: Vec<u8>,
    pub asks: bool,
    pub client: C,
    pub server: Option<E>,
    /// The delivery that was opened of it.
    pub delivery: Option<u64>,
    pub is_answered: bool,
    /// Nothing more comes of it.
    pub is_over: bool,
    /// Its sender is gone, and hears no answer.
    pub is_deaf: bool,
}

impl<C, E> Link<C, E> {
    /// Whether a worker of this relay sends on it.
    pub fn is_of(&self, relay: u32) -> bool {
        match self.chunk {
            Some(name) => name.relay == relay,
            None => false,
        }
    }

    /// Nothing more comes of it. The relay's end, if it is there, is to end.
    pub fn cut(&mut self) -> Option<E> {
        self.is_over = true;
        self.server.take()
    }
}

impl<C: Drop, E> Link<C, E> {
    // The relay's end, if it is there, is left of it.
    fn into_server(self) -> Option<E> {
        let Link {
            chunk: _,
            message: _,
            to: _,
            source: _,
            bytes: _,
            entries: _,
            asks: _,
            client: _,
            server,
            delivery: _,
            is_answered: _,
            is_over: _,
            is_deaf: _,
        } = self;
        server
    }
}

impl<C, E: Server> Link<C, E> {
    /// Whether a delivery of its message waits.
    pub fn is_waiting(&self) -> bool {
        match &self.server {
            Some(server) => server.awaits(),
            None => false,
        }
    }

    /// Whether the relay has answered since this was asked last.
    pub fn notes_answer(&mut self) -> bool {
        if self.is_answered || self.answer().is_empty() {
            return false;
        }
        self.is_answered = true;
        true
    }

    /// What of an answer is under way.
    pub fn answer(&self) -> &[u8] {
        match &self.server {
            Some(server) => server.answer(),
            None => &[],
        }
    }

    /// Whether all of an answer came to the sender: what it hears then isn't in it.
    pub fn is_unheard(&self) -> bool {
        self.is_answered && self.answer().is_empty()
    }
}

impl<C: Client, E: Server> Link<C, E> {
    /// So many bytes of the answer at most, which are under way, come to the sender.
    pub fn hear(&mut self, alloc: Global, most: usize) -> Result<Heard<Global>, AllocError> {
        let Some(server) = &mut self.server else {
            return Ok(Heard::Wait);
        };
        let piece = server.take_answer(alloc, most)?;
        if piece.is_empty() {
            return Ok(Heard::Wait);
        }
        self.client.hear(&piece)
    }
}

/// The relay's end of a connection goes.
pub fn hang_up<R: Wait, P: Parts>(rt: &R, open: &mut P, link: &mut Link<P::Client, P::Server>) {
    if let Some(server) = link.cut() {
        open.hang_up(rt, server);
    }
}

/// Ends these connections.
pub fn end_links<R: Wait, P: Parts>(rt: &R, links: Vec<Link<P::Client, P::Server>>, spare: &mut P) {
    let mut rest = links.into_iter();
    while let Some(link) = rest.next() {
        if let Some(server) = link.into_server() {
            spare.hang_up(rt, server);
        }
    }
    rest.destroy_empty();
}
