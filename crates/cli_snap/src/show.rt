// The command `show`: what a snapshot's file says of the machine, as text.

mod answer;
mod devices;
mod harts;
mod laws;
mod lines;
mod modules;
mod names;
mod pages;
mod whole;

pub use answer::secvisor_show;
pub use laws::law_show_ends;
