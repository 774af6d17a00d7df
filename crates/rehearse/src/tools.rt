// Small parts of the program: refusals and full memory as errors, a count, and the front of a buffer.
use anyhow::Context;
use fault::Fault;
use std::alloc::AllocError;

// A refusal as an error of the program.
pub fn sure<T>(answer: Result<T, Fault>) -> anyhow::Result<T> {
    answer
        .ok()
        .context("a call of the rehearsal's own was refused")
}

pub fn push<T: Drop>(all: &mut Vec<T>, x: T) -> Result<(), AllocError> {
    all.push(x)?;
    Ok(())
}

// Counts one more.
pub fn one_more(count: &mut u32) {
    *count = count.saturating_add(1);
}

// A part of a buffer from its front.
pub fn front(buffer: &[u8], n: usize) -> &[u8] {
    &buffer[..n.min(buffer.len())]
}
