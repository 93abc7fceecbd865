//! What the scope of work says of run lists, run case by case: its cases C1 to C3 and C7 to C14, and each limit at both
//! sides.
#![tactic(auto)]

mod lists;
mod offsets;

use std::io;

fn main(rt: HostRuntime) -> io::Result<()> {
    lists::cases(&rt)?;
    offsets::cases(&rt)
}
