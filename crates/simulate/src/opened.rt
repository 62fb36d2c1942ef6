//! A relay that is open, whatever its parts are made of.

use ack_receipt::Numbers;

/// A relay that is open: its lanes, its buffers and outputs by their numbers, and where messages
/// come in. Their types are parameters, so that who asks for one part isn't proved over the others.
pub struct Opened<L, B, O, I> {
    lanes: L,
    buffers: Vec<B>,
    outputs: Vec<O>,
    inlets: Vec<I>,
    numbers: Numbers,
}

impl<L, B, O, I> Opened<L, B, O, I> {
    /// A relay of these parts, in which no delivery began.
    pub fn new(lanes: L, buffers: Vec<B>, outputs: Vec<O>, inlets: Vec<I>) -> Self {
        Opened {
            lanes,
            buffers,
            outputs,
            inlets,
            numbers: Numbers::new(),
        }
    }

    /// Its lanes, for who changes them.
    pub fn lanes(&mut self) -> &mut L {
        &mut self.lanes
    }

    /// Its lanes.
    pub fn seen_lanes(&self) -> &L {
        &self.lanes
    }

    /// How many buffers it has.
    pub fn count(&self) -> usize {
        self.buffers.len()
    }

    /// The buffer of this number.
    pub fn buffer(&self, number: usize) -> Option<&B> {
        self.buffers.get(number)
    }

    /// The output of this number.
    pub fn output(&self, number: usize) -> Option<&O> {
        self.outputs.get(number)
    }

    /// Where messages come in at this source.
    pub fn inlet(&self, source: usize) -> Option<&I> {
        self.inlets.get(source)
    }

    /// The same, with what takes them.
    pub fn entrance(&mut self, source: usize) -> Option<(&I, &mut L, &mut Numbers)> {
        match self.inlets.get(source) {
            Some(inlet) => Some((inlet, &mut self.lanes, &mut self.numbers)),
            None => None,
        }
    }
}

impl<L, B: Drop, O: Drop, I: Drop> Opened<L, B, O, I> {
    /// Its lanes alone.
    pub fn into_lanes(self) -> L {
        let (lanes, _, _) = self.into_parts();
        lanes
    }

    /// Its lanes, buffers and outputs.
    pub fn into_parts(self) -> (L, Vec<B>, Vec<O>) {
        let Opened {
            lanes,
            buffers,
            outputs,
            inlets: _,
            numbers: _,
        } = self;
        (lanes, buffers, outputs)
    }
}
