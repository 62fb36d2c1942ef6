//! The files of a data folder, counted one after another.

ghost use Rattle.std.specs.Prelude.{◌≡◌, map, IfOk, OnOk};
ghost use Rattle.folder_listing.specs.Files.{named_of};
ghost use Rattle.folder_counts.specs.Folders.{folder_with, no_folder, AreCounted, IsCounted, OfBuffer, OfSink, Takes};
ghost use Rattle.folder_counts.specs.Order.{IsInOrder};

use crate::buffers::Buffer;
use crate::events::Held;
use crate::journal::count_journal;
use crate::names::owner_of;
use crate::parts::{put_part, sort_parts};
use crate::sinks::Sink;
use crate::spelling::Items;
use folder_listing::{DataFile, Kind, OpenPlaced, found_in};
use program_text::Open;
use std::alloc::{AllocError, Allocator};
use std::marker::Model;

/// The buffers and the sinks of a folder, each in the order of their first files until they are
/// sorted.
#[derive(Drop)]
pub struct FolderCounts<'a, A: Allocator> {
    buffers: Vec<Buffer<'a>, A>,
    sinks: Vec<Sink<'a>, A>,
}

impl<'a, A: Allocator> Model for FolderCounts<'a, A> {
    ghost use Rattle.folder_counts.specs.Views.{FolderView};

    ghost Value = { FolderView };

    ghost view = { λ f. record { buffers = f.buffers.items; sinks = f.sinks.items } };
}

impl<'a, A: Allocator> FolderCounts<'a, A> {
    // A folder without files.
    fn new(alloc: A) -> FolderCounts<'a, A>
    where
        A: Copy,
        ensures { result ≡ no_folder }
    {
        FolderCounts {
            buffers: Vec::new(alloc),
            sinks: Vec::new(alloc),
        }
    }

    /// Its buffers.
    pub fn buffers(&self) -> &[Buffer<'a>]
        ensures { result.now ≡ self.now.buffers }
    {
        &self.buffers
    }

    /// Its sinks.
    pub fn sinks(&self) -> &[Sink<'a>]
        ensures { result.now ≡ self.now.sinks }
    {
        &self.sinks
    }

    /// Puts the buffers and the sinks in the order of their paths.
    pub fn sort(&mut self)
        ensures { IsInOrder self.old self.new }
    {
        sort_parts(&mut self.buffers);
        sort_parts(&mut self.sinks);
    }

    // Counts the file of this kind and name, and takes it. The error is want of memory.
    fn take<B: Allocator + Copy, O: OpenPlaced>(
        &mut self,
        alloc: B,
        kind: Kind,
        name: &'a str,
        files: &O,
    ) -> Result<(), AllocError>
        ensures { OnOk result (Takes (O.text_of files.now) (kind, name.now) self.old self.new) }
    {
        match kind {
            Kind::Journal => {
                let buffer = count_buffer(alloc, name, files)?;
                self.put_buffer(buffer)
            }
            Kind::Sink => {
                let sink = count_part(alloc, name, files)?;
                self.put_sink(sink)
            }
        }
    }

    // Takes one generation of a buffer more. The error is want of memory.
    fn put_buffer(&mut self, buffer: Buffer<'a>) -> Result<(), AllocError>
        ensures { OnOk result (self.new ≡ folder_with self.old (OfBuffer buffer.entry)) }
    {
        put_part(&mut self.buffers, buffer)
    }

    // Takes one file of a sink more. The error is want of memory.
    fn put_sink(&mut self, sink: Sink<'a>) -> Result<(), AllocError>
        ensures { OnOk result (self.new ≡ folder_with self.old (OfSink sink.entry)) }
    {
        put_part(&mut self.sinks, sink)
    }
}

/// The buffers and the sinks that these files make, each file read in pieces of 65,536 bytes. Of a
/// file are held a piece, one record or event that isn't whole, and of a journal what its live
/// chunks are, without their entries. The error is want of memory, also for a number of 2^64 or
/// more.
pub fn count_folder<'a, A: Allocator + Copy, B: Allocator, O: OpenPlaced>(
    alloc: A,
    listed: &'a [DataFile<B>],
    files: &O,
) -> Result<FolderCounts<'a, A>, AllocError>
    ensures { IfOk result
        (λ folder. AreCounted (O.text_of files.now) (map named_of listed.now) folder) }
{
    let mut folder = FolderCounts::new(alloc);
    for file in listed {
        folder.take(alloc, file.kind, file.name.as_str(), files)?;
    }
    Ok(folder)
}

// The generation of a buffer in the journal of this name. The error is want of memory.
fn count_buffer<'a, A: Allocator + Copy, O: OpenPlaced>(
    alloc: A,
    name: &'a str,
    files: &O,
) -> Result<Buffer<'a>, AllocError>
    ensures is { IfOk result (λ buffer. IsCounted (O.text_of files.now) (OfBuffer buffer)) }
    ensures name { IfOk result (λ buffer. buffer.file ≡ name.now) }
{
    let found = count_journal(alloc, name, files)?;
    let (path, number) = owner_of(Kind::Journal, name);
    Ok(Buffer::new(path, name, number, found))
}

// The sink that has only the file of this name. The error is want of memory.
fn count_part<'a, A: Allocator + Copy, O: Open>(
    alloc: A,
    name: &'a str,
    files: &O,
) -> Result<Sink<'a>, AllocError>
    ensures is { IfOk result (λ sink. IsCounted (O.text_of files.now) (OfSink sink)) }
    ensures name { IfOk result (λ sink. sink.newest ≡ name.now) }
{
    let found = found_in(alloc, Held::new(alloc, Items), name, files)?;
    let (path, number) = owner_of(Kind::Sink, name);
    Ok(Sink::new(path, name, number, found.counts()))
}
