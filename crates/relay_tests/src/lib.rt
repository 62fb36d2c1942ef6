//! Tests of the relay whose values no clause and no trial sees: what is left of a loop's
//! deliveries, beside the books of its buffers, and the codes of a courier's faults.
#![tactic(auto)]

#[cfg(test)]
mod faults;
#[cfg(test)]
mod loops;
#[cfg(test)]
mod talks;
