//! A network, drawn: a plan and the configuration of each of its relays, as texts.

use crate::dice::Dice;
use crate::text::{put, put_number};
use std::alloc::{AllocError, Global};

/// The port of a network's first source; those of the relay behind it are ten higher.
pub const FIRST_PORT: u16 = 24_000;

/// A network's texts, the number of its first relay, behind which those of the others follow, and
/// how many acts its run has.
pub struct Drawing {
    pub first: u32,
    pub plan: String,
    pub confs: Vec<Vec<u8>>,
    pub acts: u64,
}

impl Drop for Drawing {
    fn drop(self) {
        let Drawing {
            first: _,
            plan: _,
            confs: _,
            acts: _,
        } = self;
    }
}

// Where a configuration is drawn: the relay's place, how many relays there are, and how many
// outputs it has so far.
#[derive(Clone, Copy)]
struct Place {
    at: usize,
    count: usize,
    outputs: usize,
}

// An output that was drawn.
#[derive(Clone, Copy)]
struct Output {
    number: usize,
    is_in_memory: bool,
    retries: &'static str,
    overflow: &'static str,
    // How much its buffer takes; 0 where nothing is said of that.
    limit: usize,
    // The port that it sends to, or 0 where it is a sink.
    port: usize,
    asks: bool,
}

/// Draws a network of one to four relays, each of which sends to those behind it, with two clients.
pub fn draw(alloc: Global, dice: &mut Dice) -> Result<Drawing, AllocError> {
    let count = dice.below(4).saturating_add(1);
    let mut drawing = Drawing {
        first: dice.below(100) as u32 + 1,
        plan: String::new(alloc),
        confs: Vec::new(alloc),
        acts: 0,
    };
    put_plan(alloc, &mut drawing.plan, drawing.first as usize, count)?;
    put_confs(alloc, dice, &mut drawing.confs, count)?;
    drawing.acts = dice.below(200) as u64 + 20;
    Ok(drawing)
}

// So many relays, and both clients.
fn put_plan(
    alloc: Global,
    plan: &mut String,
    first: usize,
    count: usize,
) -> Result<(), AllocError> {
    for number in first..first.saturating_add(count) {
        put_relay(alloc, plan, number)?;
    }
    put_client(plan, first, 0)?;
    put_client(plan, first, 1)
}

// The line of the relay with this number.
fn put_relay(alloc: Global, plan: &mut String, number: usize) -> Result<(), AllocError> {
    let name = format!(in alloc; "{number}")?;
    put(
        plan,
        &["relay ", &name, " 127.0.0.1 ", &name, " ", &name, ".conf\n"],
    )
}

// The line of the client that sends to this source of the first relay.
fn put_client(plan: &mut String, first: usize, source: usize) -> Result<(), AllocError> {
    put_number(plan, "client ", first as u64, " ")?;
    put_number(plan, "", port_of(0, source) as u64, " a.** b\n")
}

// The configurations of so many relays.
fn put_confs(
    alloc: Global,
    dice: &mut Dice,
    confs: &mut Vec<Vec<u8>>,
    count: usize,
) -> Result<(), AllocError> {
    for at in 0..count {
        let place = Place {
            at,
            count,
            outputs: 0,
        };
        let text = conf(alloc, dice, place)?;
        confs.push(text.into_bytes())?;
    }
    Ok(())
}

// A relay's configuration.
fn conf(alloc: Global, dice: &mut Dice, place: Place) -> Result<String, AllocError> {
    let mut text = String::new(alloc);
    put_conf(dice, &mut text, place)?;
    Ok(text)
}

// One of these, the first of them once in so many times.
fn one_of(dice: &mut Dice, times: usize, first: &'static str, other: &'static str) -> &'static str {
    if dice.once_in(times) { first } else { other }
}

// A relay with two sources, of which the second may put a prefix in front of tags, and with
// matches, of which the last takes every tag.
fn put_conf(dice: &mut Dice, text: &mut String, place: Place) -> Result<(), AllocError> {
    let prefix = one_of(dice, 2, "  add_tag_prefix p\n", "");
    put_source(text, port_of(place.at, 0), "")?;
    put_source(text, port_of(place.at, 1), prefix)?;
    let mut place = place;
    put_rules(dice, text, &mut place)
}

fn put_source(text: &mut String, port: usize, prefix: &str) -> Result<(), AllocError> {
    put_number(
        text,
        "<source>\n  @type forward\n  port ",
        port as u64,
        "\n",
    )?;
    put(text, &[prefix, "</source>\n"])
}

// The port of a source of the relay at this place.
fn port_of(at: usize, source: usize) -> usize {
    at.saturating_mul(10)
        .saturating_add(source)
        .saturating_add(FIRST_PORT as usize)
}

// The patterns that a relay may have matches of, before the last.
const PATTERNS: [&str; 3] = ["a.*", "*.a.*", "{b,p.b}"];

// Its matches, and a label where one of them may lead to it.
fn put_rules(dice: &mut Dice, text: &mut String, place: &mut Place) -> Result<(), AllocError> {
    let labelled = dice.once_in(4);
    for pattern in &PATTERNS {
        if !dice.once_in(2) {
            put_rule(dice, text, place, pattern, labelled)?;
        }
    }
    put_rule(dice, text, place, "**", labelled)?;
    if labelled {
        return put_label(dice, text, place);
    }
    Ok(())
}

// The label, with one match.
fn put_label(dice: &mut Dice, text: &mut String, place: &mut Place) -> Result<(), AllocError> {
    text.push_str("<label @ON>\n")?;
    put_rule(dice, text, place, "**", false)?;
    text.push_str("</label>\n")
}

// A match that leads to the label, or one with one output, or with two.
fn put_rule(
    dice: &mut Dice,
    text: &mut String,
    place: &mut Place,
    pattern: &str,
    labelled: bool,
) -> Result<(), AllocError> {
    put(text, &["<match ", pattern, ">\n"])?;
    if labelled && dice.once_in(3) {
        return text.push_str("  @type relabel\n  @label @ON\n</match>\n");
    }
    let one = draw_output(dice, place);
    if dice.once_in(3) {
        let other = draw_output(dice, place);
        return put_copy(text, &one, &other);
    }
    put_output(text, &one, "</match>\n")
}

// What a match with these two outputs has.
fn put_copy(text: &mut String, one: &Output, other: &Output) -> Result<(), AllocError> {
    text.push_str("  @type copy\n  <store>\n")?;
    put_output(text, one, "  </store>\n  <store>\n")?;
    put_output(text, other, "  </store>\n</match>\n")
}

// The next output of a relay.
fn draw_output(dice: &mut Dice, place: &mut Place) -> Output {
    let number = place.outputs;
    place.outputs = number.saturating_add(1);
    let is_in_memory = dice.once_in(6);
    let retries = one_of(
        dice,
        8,
        "    retry_max_times 1\n",
        "    retry_forever true\n",
    );
    let overflow = one_of(dice, 8, "    overflow_action drop_oldest_chunk\n", "");
    let limit = draw_limit(dice);
    let port = draw_port(dice, place);
    Output {
        number,
        is_in_memory,
        retries,
        overflow,
        limit,
        port,
        asks: port == 0 || !dice.once_in(6),
    }
}

// How much a buffer takes: at times no more than a few entries.
fn draw_limit(dice: &mut Dice) -> usize {
    if dice.once_in(3) {
        return dice.below(36).saturating_add(7);
    }
    0
}

// The port of a relay behind this one that an output sends to, or 0 for a sink.
fn draw_port(dice: &mut Dice, place: &Place) -> usize {
    let behind = place.count.saturating_sub(place.at).saturating_sub(1);
    if behind == 0 || dice.once_in(3) {
        return 0;
    }
    let to = place
        .at
        .saturating_add(1)
        .saturating_add(dice.below(behind));
    port_of(to, dice.below(2))
}

// An output, and this behind it.
fn put_output(text: &mut String, one: &Output, behind: &str) -> Result<(), AllocError> {
    put_aim(text, one)?;
    put_kind(text, one)?;
    put(text, &[one.retries, one.overflow])?;
    put_limit(text, one.limit)?;
    put(text, &["    flush_mode immediate\n  </buffer>\n", behind])
}

// Where an output's chunks go.
fn put_aim(text: &mut String, one: &Output) -> Result<(), AllocError> {
    if one.port == 0 {
        return put_number(text, "  @type file\n  path sink", one.number as u64, "\n");
    }
    let asks = if one.asks { "true" } else { "false" };
    let kind = "  @type forward\n  require_ack_response ";
    put(text, &[kind, asks, "\n  <server>\n    host 127.0.0.1\n"])?;
    put_number(text, "    port ", one.port as u64, "\n  </server>\n")
}

// Whether its buffer is in memory, or where it is.
fn put_kind(text: &mut String, one: &Output) -> Result<(), AllocError> {
    if one.is_in_memory {
        return text.push_str("  <buffer>\n");
    }
    let before = "  <buffer>\n    @type file\n    path buf";
    put_number(text, before, one.number as u64, "\n")
}

// How much a buffer takes, where that is said.
fn put_limit(text: &mut String, limit: usize) -> Result<(), AllocError> {
    if limit == 0 {
        return Ok(());
    }
    put_number(text, "    total_limit_size ", limit as u64, "\n")
}
