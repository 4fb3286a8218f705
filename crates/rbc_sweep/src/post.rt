//! Where the trains of a sweep are served.

use rbc_desk::{Desk, DeskName, Gate};
use std::alloc::Global;
use std::sync::Wait;
use std::thread::Threads;

/// A desk, the gate that trains pass there, and what serving takes: a runtime and memory.
#[derive(Drop)]
pub(crate) struct Post<'a, L: DeskName, R: Threads + Wait, G: Gate> {
    pub(crate) rt: &'a R,
    pub(crate) alloc: Global,
    pub(crate) desk: &'a Desk<L>,
    pub(crate) gate: &'a G,
}
