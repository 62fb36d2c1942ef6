//! Tests of folders of the system, of an open sink, of what a stop leaves of a buffer, and of what
//! no clause says of buffers; and each request for memory of each call below the relay, refused in
//! turn.
#![tactic(auto)]

#[cfg(test)]
mod devices;
#[cfg(test)]
mod folders;
#[cfg(test)]
mod parts;
#[cfg(test)]
mod real;
#[cfg(test)]
mod records;
#[cfg(test)]
mod refusals;
#[cfg(test)]
mod rotations;
#[cfg(test)]
mod script;
#[cfg(test)]
mod sharing;
#[cfg(test)]
mod shelves;
#[cfg(test)]
mod stops;
