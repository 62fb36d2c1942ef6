//! What stands in the rows of a picture, before it is escaped.

use crate::ends::{end_of, end_of_client, scope_name};
use crate::patterns::put_patterns;
use crate::pieces::{Piece, joined};
use crate::rows::{Kind, Row};
use crate::sheet::Sheet;
use relay_conf::{Output, Scope, Server, Source};
use relay_net::{Client, Node};
use std::alloc::{AllocError, Allocator};

impl<'a, A: Allocator + Copy> Sheet<'a, A> {
    /// What the row is.
    pub fn words(&self, row: &Row<'a, A>) -> Result<Vec<u8, A>, AllocError> {
        match &row.kind {
            Kind::Client(client) => client_words(self.alloc, *client),
            Kind::Relay(node) => self.relay_words(row.place, *node),
            Kind::Source(source) => self.source_words(row.place, *source),
            Kind::Scope(scope) => scope_words(self.alloc, row.scope, *scope),
            Kind::Match => self.match_words(row),
            Kind::Output(output) => self.output_words(row.place, *output),
            Kind::Server(server) => self.server_words(*server),
        }
    }

    fn relay_words(&self, place: usize, node: &'a Node<A>) -> Result<Vec<u8, A>, AllocError> {
        joined(
            self.alloc,
            &[
                Piece::Text(b"relay "),
                Piece::Number(node.number as usize),
                Piece::Text(b" "),
                Piece::Text(node.host.as_bytes()),
                Piece::Text(b" "),
                Piece::Text(self.folder(place)),
                Piece::Text(b" ("),
                Piece::Text(self.conf_name(place)),
                Piece::Text(b")"),
            ],
        )
    }

    // The folder of the relay at this place.
    fn folder(&self, place: usize) -> &'a [u8] {
        match self.plan.relay_lines().get(place) {
            Some(found) => found.folder.as_bytes(),
            None => b"",
        }
    }

    // The name of the configuration of the relay at this place.
    fn conf_name(&self, place: usize) -> &'a [u8] {
        match self.texts.conf_names.get(place) {
            Some(name) => name.as_bytes(),
            None => b"",
        }
    }

    fn source_words(&self, place: usize, source: &'a Source<A>) -> Result<Vec<u8, A>, AllocError> {
        let (between, prefix): (&[u8], &[u8]) = match &source.prefix {
            Some(prefix) => (b", with the prefix ", prefix.as_bytes()),
            None => (b"", b""),
        };
        joined(
            self.alloc,
            &[
                Piece::Text(b"source "),
                Piece::Number(source.port as usize),
                Piece::Text(b" -> "),
                Piece::Text(self.scope_at(place, source.label.0)),
                Piece::Text(between),
                Piece::Text(prefix),
            ],
        )
    }

    // The name of this scope of the relay at this place.
    fn scope_at(&self, place: usize, scope: usize) -> &'a [u8] {
        match self.plan.net().relays().get(place) {
            Some(node) => scope_name(node, scope),
            None => b"",
        }
    }

    fn match_words(&self, row: &Row<'a, A>) -> Result<Vec<u8, A>, AllocError> {
        let site = self.texts.conf_site(row.place, row.line);
        let text = site.line_text(self.alloc)?;
        joined(
            self.alloc,
            &[
                Piece::Text(b"match "),
                Piece::Number(row.index),
                Piece::Text(b" "),
                Piece::Text(text.trim_ascii()),
                Piece::Text(b" line "),
                Piece::Number(row.line),
            ],
        )
    }

    fn output_words(&self, place: usize, output: &'a Output<A>) -> Result<Vec<u8, A>, AllocError> {
        let (kind, name): (&[u8], &[u8]) = match output {
            Output::Null { .. } => (b"null", b""),
            Output::Relabel { target, .. } => (b"relabel -> ", self.scope_at(place, target.0)),
            Output::Forward { .. } => (b"forward", b""),
            Output::File { settings, .. } => (b"file ", settings.path.as_bytes()),
        };
        joined(self.alloc, &[Piece::Text(kind), Piece::Text(name)])
    }

    fn server_words(&self, server: &'a Server<A>) -> Result<Vec<u8, A>, AllocError> {
        let host = server.host.as_bytes();
        match end_of(self.plan, host, server.port) {
            Some(end) => joined(
                self.alloc,
                &[
                    Piece::Text(b"server "),
                    Piece::Text(host),
                    Piece::Text(b":"),
                    Piece::Number(server.port as usize),
                    Piece::Text(b" -> relay "),
                    Piece::Number(end.node.number as usize),
                    Piece::Text(b" "),
                    Piece::Text(scope_name(end.node, end.at.scope)),
                ],
            ),
            None => joined(
                self.alloc,
                &[
                    Piece::Text(b"server "),
                    Piece::Text(host),
                    Piece::Text(b":"),
                    Piece::Number(server.port as usize),
                    Piece::Text(b" -> nowhere"),
                ],
            ),
        }
    }

    /// Where the messages of the client at this place come in.
    pub fn entry_words(&self, place: usize, client: &Client<A>) -> Result<Vec<u8, A>, AllocError> {
        match end_of_client(self.plan, client, place) {
            Some(end) => joined(
                self.alloc,
                &[
                    Piece::Text(b"relay "),
                    Piece::Number(end.node.number as usize),
                    Piece::Text(b" "),
                    Piece::Text(self.folder(end.at.relay)),
                    Piece::Text(b", source "),
                    Piece::Number(end.port as usize),
                    Piece::Text(b" -> "),
                    Piece::Text(scope_name(end.node, end.at.scope)),
                ],
            ),
            None => Vec::from_slice(self.alloc, b"nowhere"),
        }
    }
}

fn client_words<A: Allocator + Copy>(
    alloc: A,
    client: &Client<A>,
) -> Result<Vec<u8, A>, AllocError> {
    let mut words = joined(
        alloc,
        &[
            Piece::Text(b"client "),
            Piece::Number(client.relay as usize),
            Piece::Text(b" "),
            Piece::Number(client.port as usize),
        ],
    )?;
    let mut count = 0;
    put_patterns(&mut words, &client.patterns, &mut count)?;
    Ok(words)
}

fn scope_words<A: Allocator + Copy>(
    alloc: A,
    number: usize,
    scope: &Scope<A>,
) -> Result<Vec<u8, A>, AllocError> {
    if number == 0 {
        return Vec::from_slice(alloc, b"top");
    }
    joined(
        alloc,
        &[Piece::Text(b"label "), Piece::Text(scope.name.as_bytes())],
    )
}
