//! The picture for Graphviz.

use crate::ends::{end_of, end_of_client};
use crate::marks::{Mark, marks_of};
use crate::notes::output_note;
use crate::pieces::{Piece, joined, put_id, put_pieces};
use crate::rows::{Kind, Row, rows_of};
use crate::sheet::Sheet;
use loss_checker::BrokenRule;
use plan_advice::Texts;
use plan_lines::Plan;
use relay_conf::{Output, Server};
use relay_net::Client;
use std::alloc::{AllocError, Allocator};

// What a red node or edge has.
const RED: &[u8] = b"color=red, fontcolor=red, ";

/// The plan as a graph in Graphviz's language, `digraph plan`: a cluster for each relay, a node for
/// each client, source, scope, match and output, and edges along which tags go, with the tags where
/// they come in at a client and where a match takes them. What stands in a line where a rule is
/// broken is red; what is broken elsewhere is a red node of its own.
///
/// Names stand in quotes; only printed characters of ASCII are shown as they are. Each row is
/// compared with each broken place. The only error is want of memory.
pub fn draw_dot<A: Allocator + Copy>(
    alloc: A,
    plan: &Plan<A>,
    texts: &Texts<'_, A>,
    broken: &[BrokenRule<A>],
) -> Result<Vec<u8, A>, AllocError> {
    let rows = rows_of(alloc, plan)?;
    let marks = marks_of(alloc, broken)?;
    Sheet::new(alloc, plan, texts, &rows, &marks).dot()
}

impl<'a, A: Allocator + Copy> Sheet<'a, A> {
    // The picture.
    fn dot(&self) -> Result<Vec<u8, A>, AllocError> {
        let front = b"digraph plan {\n  rankdir=LR;\n  node [shape=box];\n";
        let mut out = Vec::from_slice(self.alloc, front)?;
        self.put_parts(&mut out)?;
        Ok(out)
    }

    // Adds all nodes and edges, and the end.
    fn put_parts(&self, out: &mut Vec<u8, A>) -> Result<(), AllocError> {
        self.put_nodes(out)?;
        self.put_edges(out)?;
        self.put_red_nodes(out)?;
        out.extend_from_slice(b"}\n")
    }

    // Adds the node of each row; those of a relay in its cluster.
    fn put_nodes(&self, out: &mut Vec<u8, A>) -> Result<(), AllocError> {
        for row in self.rows {
            self.put_node_or_cluster(out, row)?;
        }
        if self.plan.net().relays().is_empty() {
            return Ok(());
        }
        out.extend_from_slice(b"  }\n")
    }

    // Adds the node of a row, or the beginning of a relay's cluster behind the end of the one
    // before.
    fn put_node_or_cluster(
        &self,
        out: &mut Vec<u8, A>,
        row: &Row<'a, A>,
    ) -> Result<(), AllocError> {
        match &row.kind {
            Kind::Client(_) => self.put_node(out, row, b"  client", &[row.place]),
            Kind::Relay(_) => self.put_cluster(out, row),
            Kind::Source(_) => self.put_node(out, row, b"    source", &[row.place, row.index]),
            Kind::Scope(_) => self.put_node(out, row, b"    scope", &[row.place, row.scope]),
            Kind::Match => {
                self.put_node(out, row, b"    match", &[row.place, row.scope, row.index])
            }
            Kind::Output(_) => self.put_node(
                out,
                row,
                b"    output",
                &[row.place, row.scope, row.index, row.output],
            ),
            Kind::Server(_) => Ok(()),
        }
    }

    // Adds the beginning of a relay's cluster, behind the end of the one before.
    fn put_cluster(&self, out: &mut Vec<u8, A>, row: &Row<'a, A>) -> Result<(), AllocError> {
        let front: &[u8] = if row.place > 0 {
            b"  }\n  subgraph cluster"
        } else {
            b"  subgraph cluster"
        };
        put_id(self.alloc, out, front, &[row.place])?;
        let red: &[u8] = if self.is_broken(row) {
            b"    color=red;\n    fontcolor=red;\n"
        } else {
            b""
        };
        let words = self.words(row)?;
        put_cluster_label(self.alloc, out, &words, red)
    }

    // Adds the row's node, with a name of this text and these numbers.
    fn put_node(
        &self,
        out: &mut Vec<u8, A>,
        row: &Row<'a, A>,
        text: &[u8],
        numbers: &[usize],
    ) -> Result<(), AllocError> {
        put_id(self.alloc, out, text, numbers)?;
        let words = self.node_words(row)?;
        self.put_label(out, row, &words)
    }

    // What stands in the node: the row's words, and of an output whether it keeps.
    fn node_words(&self, row: &Row<'a, A>) -> Result<Vec<u8, A>, AllocError> {
        let mut words = self.words(row)?;
        if let Kind::Output(output) = &row.kind {
            let note = output_note(*output);
            let between: &[u8] = if note.is_empty() { b"" } else { b", " };
            put_pieces(
                self.alloc,
                &mut words,
                &[Piece::Text(between), Piece::Text(note)],
            )?;
        }
        Ok(words)
    }

    // Adds the label of a node or an edge, and ends its line; red where a rule is broken at the
    // row.
    fn put_label(
        &self,
        out: &mut Vec<u8, A>,
        row: &Row<'a, A>,
        label: &[u8],
    ) -> Result<(), AllocError> {
        let red: &[u8] = if self.is_broken(row) { RED } else { b"" };
        put_end(self.alloc, out, red, label)
    }

    // Adds the edges that end or begin at each row.
    fn put_edges(&self, out: &mut Vec<u8, A>) -> Result<(), AllocError> {
        for row in self.rows {
            self.put_edges_of(out, row)?;
        }
        Ok(())
    }

    fn put_edges_of(&self, out: &mut Vec<u8, A>, row: &Row<'a, A>) -> Result<(), AllocError> {
        match &row.kind {
            Kind::Client(client) => self.put_client(out, row, *client),
            Kind::Source(source) => self.put_edge(
                out,
                row,
                b"  source",
                &[row.place, row.index],
                b" -> scope",
                &[row.place, source.label.0],
                b"",
            ),
            Kind::Match => self.put_match(out, row),
            Kind::Output(output) => self.put_output(out, row, *output),
            Kind::Server(server) => self.put_server(out, row, *server),
            _ => Ok(()),
        }
    }

    // Adds the edge of a client to the source where it comes in.
    fn put_client(
        &self,
        out: &mut Vec<u8, A>,
        row: &Row<'a, A>,
        client: &Client<A>,
    ) -> Result<(), AllocError> {
        match end_of_client(self.plan, client, row.place) {
            Some(end) => self.put_edge(
                out,
                row,
                b"  client",
                &[row.place],
                b" -> source",
                &[end.at.relay, end.source],
                b"",
            ),
            None => Ok(()),
        }
    }

    // Adds the edge of a scope to its match, with the tags that the match takes.
    fn put_match(&self, out: &mut Vec<u8, A>, row: &Row<'a, A>) -> Result<(), AllocError> {
        let tags = self.reach_tags(row)?;
        self.put_edge(
            out,
            row,
            b"  scope",
            &[row.place, row.scope],
            b" -> match",
            &[row.place, row.scope, row.index],
            tags.trim_ascii_start(),
        )
    }

    // Adds the edge of a match to its output, and that of a relabel to its target.
    fn put_output(
        &self,
        out: &mut Vec<u8, A>,
        row: &Row<'a, A>,
        output: &Output<A>,
    ) -> Result<(), AllocError> {
        let numbers = [row.place, row.scope, row.index, row.output];
        self.put_edge(
            out,
            row,
            b"  match",
            &[row.place, row.scope, row.index],
            b" -> output",
            &numbers,
            b"",
        )?;
        match output {
            Output::Relabel { target, .. } => self.put_edge(
                out,
                row,
                b"  output",
                &numbers,
                b" -> scope",
                &[row.place, target.0],
                b"",
            ),
            _ => Ok(()),
        }
    }

    // Adds an edge with this label, from the node with a name of this text and these numbers to
    // that one.
    fn put_edge(
        &self,
        out: &mut Vec<u8, A>,
        row: &Row<'a, A>,
        from: &[u8],
        from_numbers: &[usize],
        to: &[u8],
        to_numbers: &[usize],
        label: &[u8],
    ) -> Result<(), AllocError> {
        put_id(self.alloc, out, from, from_numbers)?;
        put_id(self.alloc, out, to, to_numbers)?;
        self.put_label(out, row, label)
    }

    // Adds the edge of a server to the source where it leads; to no node of the plan, where it
    // leads nowhere.
    fn put_server(
        &self,
        out: &mut Vec<u8, A>,
        row: &Row<'a, A>,
        server: &Server<A>,
    ) -> Result<(), AllocError> {
        let label = joined(
            self.alloc,
            &[
                Piece::Text(server.host.as_bytes()),
                Piece::Text(b":"),
                Piece::Number(server.port as usize),
            ],
        )?;
        let numbers = [row.place, row.scope, row.index, row.output];
        let from = b"  output";
        match end_of(self.plan, server.host.as_bytes(), server.port) {
            Some(end) => self.put_edge(
                out,
                row,
                from,
                &numbers,
                b" -> source",
                &[end.at.relay, end.source],
                &label,
            ),
            None => self.put_edge(out, row, from, &numbers, b" -> nowhere", &[], &label),
        }
    }

    // Adds a node for each rule that is broken at no row.
    fn put_red_nodes(&self, out: &mut Vec<u8, A>) -> Result<(), AllocError> {
        let mut number: usize = 0;
        for mark in self.marks {
            if self.is_nowhere(*mark) {
                put_red_node(self.alloc, out, number, *mark)?;
                number = number.saturating_add(1);
            }
        }
        Ok(())
    }
}

// Adds the label of a cluster, and what makes it red.
fn put_cluster_label<'t, A: Allocator + Copy>(
    alloc: A,
    out: &mut Vec<u8, A>,
    label: &'t [u8],
    red: &'t [u8],
) -> Result<(), AllocError> {
    put_pieces(
        alloc,
        out,
        &[
            Piece::Text(b" {\n    label="),
            Piece::Quoted(label),
            Piece::Text(b";\n"),
            Piece::Text(red),
        ],
    )
}

// Adds what makes a node or an edge red, its label, and the end of its line.
fn put_end<'t, A: Allocator + Copy>(
    alloc: A,
    out: &mut Vec<u8, A>,
    red: &'t [u8],
    label: &'t [u8],
) -> Result<(), AllocError> {
    put_pieces(
        alloc,
        out,
        &[
            Piece::Text(b" ["),
            Piece::Text(red),
            Piece::Text(b"label="),
            Piece::Quoted(label),
            Piece::Text(b"];\n"),
        ],
    )
}

// Adds the node of a rule that is broken at no row.
fn put_red_node<A: Allocator + Copy>(
    alloc: A,
    out: &mut Vec<u8, A>,
    number: usize,
    mark: Mark,
) -> Result<(), AllocError> {
    put_id(alloc, out, b"  broken", &[number])?;
    let Mark { rule, place } = mark;
    let label = format!(in alloc; "{rule} {place}")?;
    put_end(alloc, out, RED, label.as_bytes())
}
