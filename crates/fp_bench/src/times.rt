use std::alloc::{AllocError, Global};
use std::io;

/// In what a time is told: its name, and how many nanoseconds one of it has.
#[derive(Clone, Copy)]
pub struct Unit {
    pub name: &'static str,
    pub nanos: u128,
}

/// The nanoseconds that the same work took each time, the least first.
#[derive(Drop)]
pub struct Times {
    all: Vec<u128>,
}

impl Times {
    pub fn new(alloc: Global) -> Times {
        let all = Vec::new(alloc);
        Times { all }
    }

    pub fn add(&mut self, nanos: u128) -> Result<(), AllocError> {
        self.all.push(nanos)?;
        self.all.sort()
    }

    fn least(&self) -> u128 {
        self.all.first().copied().unwrap_or(0)
    }

    fn median(&self) -> u128 {
        self.all.get(self.all.len() / 2).copied().unwrap_or(0)
    }

    /// Writes a line: the least time and the median.
    pub fn tell<R: Print>(&self, rt: &R, what: &str, unit: Unit) -> io::Result<()> {
        let nanos = unit.nanos.max(1);
        println!(rt;
            "  {what}: {} {}, median {}",
            self.least() / nanos,
            unit.name,
            self.median() / nanos
        )
    }

    /// Writes a line: how many times those of other work go into these.
    pub fn tell_beside<R: Print>(&self, rt: &R, what: &str, other: &Times) -> io::Result<()> {
        let least = hundredths(self.least(), other.least());
        let median = hundredths(self.median(), other.median());
        println!(rt;
            "    times {what}: {}.{:02}, by medians {}.{:02}",
            least / 100,
            least % 100,
            median / 100,
            median % 100
        )
    }
}

fn hundredths(time: u128, other: u128) -> u128 {
    time.saturating_mul(100) / other.max(1)
}
