//! The bytes of a message reach a relay piece by piece, and what the relay makes of it is told.

use crate::chunks::{Chunks, Delivery, Name, Tally};
use crate::dice::Dice;
use crate::judge::Judge;
use crate::link::Link;
use crate::machine::Machine;
use crate::parts::{Client, Parts, Server, Settings, Way};
use crate::run::{Run, tell_oldest};
use crate::site::{Refusal, Site};
use relay_conf::BufferNo;
use relay_ports::Branches;
use std::alloc::{AllocError, Global};
use std::sync::Wait;

impl<P: Parts> Run<P> {
    /// Some bytes of a connection reach the relay.
    pub fn reach<R: Wait, M: Machine>(
        &mut self,
        rt: &R,
        dice: &mut Dice,
        judge: &mut Judge<M>,
        at: usize,
    ) -> Result<(), AllocError> {
        let Some(link) = self.links.get_mut(at) else {
            return Ok(());
        };
        let Some(site) = self.sites.get_mut(link.to) else {
            return Ok(());
        };
        let Some(count) = count_reaching(dice, link) else {
            return Ok(());
        };
        if bring(rt, self.alloc, site, link, count, judge)? {
            self.begun.push(at)?;
        }
        Ok(())
    }
}

// How many bytes of a connection reach its relay, if any are to be sent: half the time all.
fn count_reaching<C: Client, E>(dice: &mut Dice, link: &Link<C, E>) -> Option<usize> {
    let len = link.client.unsent().len();
    if link.is_over || len == 0 {
        return None;
    }
    let some = dice.below(len);
    if dice.once_in(2) {
        Some(len)
    } else {
        Some(some)
    }
}

// So many bytes of a connection reach the relay: whether the whole message is there then.
fn bring<R: Wait, P: Parts, M: Machine>(
    rt: &R,
    alloc: Global,
    site: &mut Site<P>,
    link: &mut Link<P::Client, P::Server>,
    count: usize,
    judge: &mut Judge<M>,
) -> Result<bool, AllocError> {
    if let Some(open) = &mut site.open {
        take_in(rt, alloc, open, link, count, judge)?;
    }
    if !link.client.unsent().is_empty() {
        return Ok(false);
    }
    link.delivery = note_mail(rt, alloc, site, judge, &mail_of(link))?;
    Ok(true)
}

// A message that is whole at its relay: its number, the source that it came in at, its bytes and
// those of its entries, and whether a delivery of it waits.
#[derive(Drop)]
struct Mail<'a> {
    message: u64,
    source: usize,
    bytes: &'a [u8],
    entries: &'a [u8],
    is_waiting: bool,
}

// The message of a connection.
fn mail_of<C, E: Server>(link: &Link<C, E>) -> Mail<'_> {
    Mail {
        message: link.message,
        source: link.source,
        bytes: &link.bytes,
        entries: &link.entries,
        is_waiting: link.is_waiting(),
    }
}

// So many bytes reach the relay, or all that are to be sent; it has to take them.
fn take_in<R: Wait, P: Parts, M: Machine>(
    rt: &R,
    alloc: Global,
    open: &mut P,
    link: &mut Link<P::Client, P::Server>,
    count: usize,
    judge: &mut Judge<M>,
) -> Result<(), AllocError> {
    if take_bytes(rt, alloc, open, link, count)? {
        return Ok(());
    }
    judge.fail_message(link.message, "isn't taken in")
}

// The same; `false` where it doesn't take them.
fn take_bytes<R: Wait, P: Parts>(
    rt: &R,
    alloc: Global,
    open: &mut P,
    link: &mut Link<P::Client, P::Server>,
    count: usize,
) -> Result<bool, AllocError> {
    let piece = link.client.take_piece(alloc, count)?;
    open.receive(rt, alloc, link.source, &mut link.server, &piece)
}

// The whole message is there: what the relay makes of it is told. Where a device failed, each append
// of it may be there or not. It says which delivery began, which is to wait for its answer then.
fn note_mail<R: Wait, P: Parts, M: Machine>(
    rt: &R,
    alloc: Global,
    site: &mut Site<P>,
    judge: &mut Judge<M>,
    mail: &Mail<'_>,
) -> Result<Option<u64>, AllocError> {
    let Some(open) = &site.open else {
        return fail_mail(judge, mail, "goes nowhere");
    };
    let began = note_way(rt, alloc, open, &mut site.chunks, judge, mail)?;
    if began.is_some() && !mail.is_waiting {
        site.refuse(Refusal::Message(mail.message));
    }
    Ok(began)
}

// The same of the relay with these parts, of whose chunks this was told.
fn note_way<R: Wait, P: Parts, M: Machine>(
    rt: &R,
    alloc: Global,
    open: &P,
    chunks: &mut Chunks,
    judge: &mut Judge<M>,
    mail: &Mail<'_>,
) -> Result<Option<u64>, AllocError> {
    match open.way(alloc, mail.source, mail.bytes)? {
        Way::Buffers(branches) => note_branches(rt, alloc, open, chunks, judge, mail, &branches),
        Way::Nowhere => fail_mail(judge, mail, "goes nowhere"),
        Way::NoMessage => fail_mail(judge, mail, "isn't one"),
    }
}

// This is wrong of a message, of which no delivery began.
fn fail_mail<M: Machine>(
    judge: &mut Judge<M>,
    mail: &Mail<'_>,
    what: &str,
) -> Result<Option<u64>, AllocError> {
    judge.fail_message(mail.message, what)?;
    Ok(None)
}

// The same of a message that goes to these buffers. Where one has no room for it, nothing is made
// of it.
fn note_branches<R: Wait, P: Parts, M: Machine>(
    rt: &R,
    alloc: Global,
    open: &P,
    chunks: &mut Chunks,
    judge: &mut Judge<M>,
    mail: &Mail<'_>,
    branches: &Branches<Global>,
) -> Result<Option<u64>, AllocError> {
    let buffers = branches.buffers.as_slice();
    if have_room(open, chunks, buffers, mail.entries.len()) {
        let one = Delivery {
            number: judge.begin(mail.message)?,
            tag: branches.tag.as_bytes(),
            entries: mail.entries,
        };
        note_appends(rt, alloc, open, chunks, judge, buffers, &one)?;
        return Ok(Some(one.number));
    }
    if mail.is_waiting {
        return fail_mail(judge, mail, "is taken without room");
    }
    Ok(None)
}

// The delivery was appended to each of these buffers.
fn note_appends<R: Wait, P: Parts, M: Machine>(
    rt: &R,
    alloc: Global,
    open: &P,
    chunks: &mut Chunks,
    judge: &mut Judge<M>,
    buffers: &[BufferNo],
    one: &Delivery<'_>,
) -> Result<(), AllocError> {
    for buffer in buffers {
        let settings = open.settings(buffer.0);
        note_drops(settings, chunks, judge, buffer.0, one.entries.len())?;
        let name = growing_chunk(rt, open, chunks, buffer.0, one.tag);
        note_append(alloc, chunks, judge, name, one)?;
    }
    Ok(())
}

// Whether each of these buffers takes so many bytes more, by what was told of the relay's chunks.
fn have_room<P: Parts>(open: &P, chunks: &Chunks, buffers: &[BufferNo], len: usize) -> bool {
    for buffer in buffers {
        if !has_room(open.settings(buffer.0), chunks.tally(buffer.0), len) {
            return false;
        }
    }
    true
}

// Whether a buffer does. Where it drops the oldest, all that are queued may go for them.
fn has_room(settings: Settings, tally: Tally, len: usize) -> bool {
    if settings.drops_oldest {
        return settings.fits(tally.others, len);
    }
    settings.fits(tally.size(), len)
}

// The oldest chunks went from this buffer so that it takes so many bytes.
fn note_drops<M: Machine>(
    settings: Settings,
    chunks: &mut Chunks,
    judge: &mut Judge<M>,
    buffer: usize,
    len: usize,
) -> Result<(), AllocError> {
    for _ in 0..chunks.tally(buffer).count {
        if let Some(serial) = to_drop(settings, chunks.tally(buffer), len) {
            let name = chunks.name(buffer, serial);
            tell_oldest(chunks, judge, name)?;
        }
    }
    Ok(())
}

// The chunk that goes from a buffer first so that it takes so many bytes more, where one does.
fn to_drop(settings: Settings, tally: Tally, len: usize) -> Option<u64> {
    if settings.drops_oldest && !settings.fits(tally.size(), len) {
        return tally.oldest;
    }
    None
}

// The delivery was appended to this chunk.
fn note_append<M: Machine>(
    alloc: Global,
    chunks: &mut Chunks,
    judge: &mut Judge<M>,
    name: Name,
    one: &Delivery<'_>,
) -> Result<(), AllocError> {
    let line = judge.tell_numbers("append", &[one.number, name.buffer as u64, name.serial])?;
    chunks.append(alloc, name, one, line)
}

// The chunk of this tag to which a buffer appended: its next chunk where that is there now, and
// else the one that grows.
fn growing_chunk<R: Wait, P: Parts>(
    rt: &R,
    open: &P,
    chunks: &Chunks,
    buffer: usize,
    tag: &[u8],
) -> Name {
    let next = chunks.next_of(buffer);
    if open.is_live(rt, buffer, next) {
        return chunks.name(buffer, next);
    }
    chunks.name(buffer, chunks.staged(buffer, tag).unwrap_or(next))
}
