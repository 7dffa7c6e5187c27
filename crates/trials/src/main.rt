#![tactic(auto)]

// Walks over every stamp of each calendar, and prints how many came round by their parts and by
// their text, with a checksum of all the texts.
mod parted;
#[cfg(test)]
mod tests;
mod walks;

use calendar::{Hour, Text};
use gregorian::{Day, Week};
use parted::Parted;
use std::io;
use walks::walk;

fn report<T: Parted>(rt: &HostRuntime, name: &str) -> io::Result<()> {
    println!(rt; "{name} from {} to {}", Text(T::first()), Text(T::last()))?;
    println!(rt; "{}", walk::<T>())
}

fn main(rt: HostRuntime) -> io::Result<()> {
    report::<Hour>(&rt, "hours")?;
    report::<Day>(&rt, "days")?;
    report::<Week>(&rt, "weeks")
}
