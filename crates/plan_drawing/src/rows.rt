//! What a picture shows of a plan, in the order in which it does: a row for each client, and for
//! each relay with all that it has.

use loss_rules::line_of;
use plan_lines::Plan;
use relay_conf::{MatchRule, Output, Scope, Server, Source};
use relay_net::{Client, Node};
use std::alloc::{AllocError, Allocator};

/// What a row shows.
#[derive(Drop)]
pub(crate) enum Kind<'a, A: Allocator> {
    Client(&'a Client<A>),
    Relay(&'a Node<A>),
    Source(&'a Source<A>),
    Scope(&'a Scope<A>),
    Match,
    Output(&'a Output<A>),
    Server(&'a Server<A>),
}

/// One thing that is shown, and where it stands; each place is counted from 0, and is 0 where there
/// is none.
#[derive(Drop)]
pub(crate) struct Row<'a, A: Allocator> {
    pub kind: Kind<'a, A>,
    /// The client, or the relay, in the plan.
    pub place: usize,
    /// The scope in the relay.
    pub scope: usize,
    /// The match in the scope; a source in the relay.
    pub index: usize,
    /// The output in the match.
    pub output: usize,
    /// The line that opens it, counted from 1: in the plan of a client or a relay, else in the
    /// relay's configuration. 0 of a scope, and of an output in its match's line.
    pub line: usize,
}

/// Rows, in the order in which they are shown.
pub(crate) type Rows<'a, A> = Vec<Row<'a, A>, A>;

/// All rows of the plan: the clients, then each relay with its sources, and its scopes with their
/// matches and what these have.
pub(crate) fn rows_of<A: Allocator + Copy>(
    alloc: A,
    plan: &Plan<A>,
) -> Result<Rows<'_, A>, AllocError> {
    let mut rows = Vec::new(alloc);
    add_clients(plan, &mut rows)?;
    add_relays(plan, &mut rows)?;
    Ok(rows)
}

fn add_clients<'a, A: Allocator + Copy>(
    plan: &'a Plan<A>,
    rows: &mut Rows<'a, A>,
) -> Result<(), AllocError> {
    for (place, client) in plan.net().clients().iter().enumerate() {
        let line = client_line(plan, place);
        rows.push(in_plan(Kind::Client(client), place, line))?;
    }
    Ok(())
}

// The line of the client at this place.
fn client_line<A: Allocator + Copy>(plan: &Plan<A>, place: usize) -> usize {
    match plan.client_lines().get(place) {
        Some(line) => *line,
        None => 0,
    }
}

fn add_relays<'a, A: Allocator + Copy>(
    plan: &'a Plan<A>,
    rows: &mut Rows<'a, A>,
) -> Result<(), AllocError> {
    for (place, node) in plan.net().relays().iter().enumerate() {
        let line = relay_line(plan, place);
        rows.push(in_plan(Kind::Relay(node), place, line))?;
        add_sources(place, &node.relay.sources, rows)?;
        add_scopes(place, &node.relay.scopes, rows)?;
    }
    Ok(())
}

// The line of the relay at this place.
fn relay_line<A: Allocator + Copy>(plan: &Plan<A>, place: usize) -> usize {
    match plan.relay_lines().get(place) {
        Some(found) => found.line,
        None => 0,
    }
}

// The row of a client or a relay.
fn in_plan<'a, A: Allocator>(kind: Kind<'a, A>, place: usize, line: usize) -> Row<'a, A> {
    Row {
        kind,
        place,
        scope: 0,
        index: 0,
        output: 0,
        line,
    }
}

fn add_sources<'a, A: Allocator>(
    place: usize,
    sources: &'a [Source<A>],
    rows: &mut Rows<'a, A>,
) -> Result<(), AllocError> {
    for (index, source) in sources.iter().enumerate() {
        rows.push(Row {
            kind: Kind::Source(source),
            place,
            scope: 0,
            index,
            output: 0,
            line: source.line,
        })?;
    }
    Ok(())
}

fn add_scopes<'a, A: Allocator>(
    place: usize,
    scopes: &'a [Scope<A>],
    rows: &mut Rows<'a, A>,
) -> Result<(), AllocError> {
    for (number, scope) in scopes.iter().enumerate() {
        rows.push(Row {
            kind: Kind::Scope(scope),
            place,
            scope: number,
            index: 0,
            output: 0,
            line: 0,
        })?;
        add_matches(place, number, &scope.matches, rows)?;
    }
    Ok(())
}

fn add_matches<'a, A: Allocator>(
    place: usize,
    scope: usize,
    rules: &'a [MatchRule<A>],
    rows: &mut Rows<'a, A>,
) -> Result<(), AllocError> {
    for (index, rule) in rules.iter().enumerate() {
        let line = rule.line;
        rows.push(Row {
            kind: Kind::Match,
            place,
            scope,
            index,
            output: 0,
            line,
        })?;
        add_outputs(place, scope, index, line, &rule.outputs, rows)?;
    }
    Ok(())
}

fn add_outputs<'a, A: Allocator>(
    place: usize,
    scope: usize,
    index: usize,
    line: usize,
    outputs: &'a [Output<A>],
    rows: &mut Rows<'a, A>,
) -> Result<(), AllocError> {
    for (number, output) in outputs.iter().enumerate() {
        rows.push(Row {
            kind: Kind::Output(output),
            place,
            scope,
            index,
            output: number,
            line: own_line(output, line),
        })?;
        add_servers(place, scope, index, number, output, rows)?;
    }
    Ok(())
}

// The output's line, unless it is that of its match.
fn own_line<A: Allocator>(output: &Output<A>, line: usize) -> usize {
    let own = line_of(output);
    if own == line { 0 } else { own }
}

fn add_servers<'a, A: Allocator>(
    place: usize,
    scope: usize,
    index: usize,
    number: usize,
    output: &'a Output<A>,
    rows: &mut Rows<'a, A>,
) -> Result<(), AllocError> {
    let Output::Forward { settings, line: _ } = output else {
        return Ok(());
    };
    for server in &settings.servers {
        rows.push(Row {
            kind: Kind::Server(server),
            place,
            scope,
            index,
            output: number,
            line: server.line,
        })?;
    }
    Ok(())
}
