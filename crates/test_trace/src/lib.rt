//! Tests of the outside, of recorders and sinks, of traces in bytes, of views with the index, why and time travel, and of the
//! whole call over the forms in memory, each call of which fails in turn. It holds nothing else. Expected values are those of
//! the definitions, worked out by hand, and of the system.
#![tactic(auto)]

#[cfg(test)]
mod bytes;
#[cfg(test)]
mod call;
#[cfg(test)]
mod checked;
#[cfg(test)]
mod failing;
#[cfg(test)]
mod first;
#[cfg(test)]
mod frames;
#[cfg(test)]
mod framing;
#[cfg(test)]
mod kinds;
#[cfg(test)]
mod memory;
#[cfg(test)]
mod mirrors;
#[cfg(test)]
mod older;
#[cfg(test)]
mod paged;
#[cfg(test)]
mod programs;
#[cfg(test)]
mod real;
#[cfg(test)]
mod recorders;
#[cfg(test)]
mod sessions;
#[cfg(test)]
mod sinks;
#[cfg(test)]
mod travel;
