//! Tests of parts that stand in several crates: registers, traps, walks and attempts of a hart, and requests of the virtio block
//! device, by rows of their standards; measures and names of addresses, module objects, the generated guest, the events of
//! scripts, and the lines of surveys; and packets of gdb.
#![tactic(auto)]

#[cfg(test)]
mod attempts;
pub mod edges;
#[cfg(test)]
mod generated;
#[cfg(test)]
mod loading;
#[cfg(test)]
mod measures;
#[cfg(test)]
mod modes;
#[cfg(test)]
mod names;
#[cfg(test)]
mod objects;
#[cfg(test)]
mod packets;
#[cfg(test)]
mod registers;
#[cfg(test)]
mod scripts;
#[cfg(test)]
mod surveys;
#[cfg(test)]
mod traps;
#[cfg(test)]
mod virtio;
#[cfg(test)]
mod walks;
