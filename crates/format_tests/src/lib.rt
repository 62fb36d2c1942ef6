//! Tests of what is read and written: configurations with their values and patterns, the words of a
//! program over texts that come slowly or without an end and writers that fail, what a refused step
//! prints, and what a relay says of itself; MessagePack items, messages of the Forward Protocol, the
//! handshake, and both ends with messages and acknowledgements.
#![tactic(auto)]

#[cfg(test)]
mod codes;
#[cfg(test)]
mod elements;
#[cfg(test)]
mod handshakes;
#[cfg(test)]
mod items;
#[cfg(test)]
mod limits;
#[cfg(test)]
mod lines;
#[cfg(test)]
mod listings;
#[cfg(test)]
mod messages;
#[cfg(test)]
mod patterns;
#[cfg(test)]
mod plans;
#[cfg(test)]
mod relays;
#[cfg(test)]
mod retries;
#[cfg(test)]
mod sessions;
#[cfg(test)]
mod values;
