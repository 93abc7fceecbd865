//! What the scope of work says of boot sectors and records, run case by case: each number at both sides of its limit, a
//! line a case.
#![tactic(auto)]

mod boot;
mod records;

use std::io;

/// Bytes that are changed: where each stands, and what it becomes.
type Changes<'a> = &'a [(usize, u8)];

fn change(bytes: &mut [u8], changes: Changes<'_>) {
    for &(at, value) in changes {
        if let Some(byte) = bytes.get_mut(at) {
            *byte = value;
        }
    }
}

fn main(rt: HostRuntime) -> io::Result<()> {
    boot::cases(&rt)?;
    records::cases(&rt)
}
