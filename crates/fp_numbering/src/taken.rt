ghost use Rattle.std.specs.Prelude.{◌≡◌, ◌<◌, ℕ, Some, None, true, ◌||◌, ◌&&◌, IfOk, OnOk};
ghost use Rattle.std.specs.BTreeSet.{contains_by};
ghost use Rattle.fp_tables.specs.Found.{key_cmp};
ghost use Rattle.fp_numbering.specs.Ends.{number_below};
ghost use Rattle.fp_numbering.specs.Pairs.{has};
ghost use Rattle.fp_numbering.specs.Numbers.{IsLeastUnused};
ghost use Rattle.fp_numbering.specs.Walks.{is_taken, IsLow, said_number, said_at, is_mark, IsGiven, AreTaken, plain_source};

use crate::tips::Tip;
use fp_base::NoMemory;
use std::alloc::Global;
use std::collections::{BTreeMap, BTreeSet};

/// The numbers that are taken at each port, and for each port that was asked a number below which all are taken there.
#[derive(Drop)]
pub struct Taken {
    pub numbers: BTreeSet<(u32, u32, u32)>,
    pub lows: BTreeMap<(u32, u32), u32>,
}

/// The written number, where the port has it.
pub fn said_number(tip: Tip) -> Option<u32>
    ensures { result ≡ said_number tip }
{
    match tip.written {
        Some(written) => number_below(tip.size, written.number),
        None => None,
    }
}

pub fn number_below(size: u32, number: i128) -> Option<u32>
    ensures { result ≡ number_below size number }
{
    if 0 <= number && number < size as i128 {
        Some(number as u32)
    } else {
        None
    }
}

/// One written number more.
fn write(numbers: &mut BTreeSet<(u32, u32, u32)>, tip: Tip) -> Result<(), NoMemory>
    ensures { OnOk result ((q : ℕ × ℕ × ℕ) → contains_by (key_cmp q) numbers.new ≡ (contains_by (key_cmp q) numbers.old || is_mark tip (said_number tip) q)) }
{
    if let Some(number) = said_number(tip) {
        numbers.insert((tip.instance, tip.port, number))?;
    }
    Ok(())
}

impl Taken {
    /// The numbers that are written.
    pub fn of(alloc: Global, tips: &[Tip]) -> Result<Taken, NoMemory>
        ensures holds { IfOk result (λ taken. (q : ℕ × ℕ × ℕ) → is_taken taken q ≡ has (said_at q tips.now) q.2) }
        ensures low { IfOk result IsLow }
    {
        let mut numbers = BTreeSet::new(alloc);
        for tip in tips {
            write(&mut numbers, *tip)?;
        }
        Ok(Taken {
            numbers,
            lows: BTreeMap::new(alloc),
        })
    }

    /// The least number below a size, not below `from`, that isn't taken at a port.
    fn least(&self, instance: u32, port: u32, size: u32, from: u32) -> Option<u32>
        requires { (n : ℕ) → n < from → is_taken self.now (instance, port, n) ≡ true }
        ensures { IsLeastUnused size (λ n. is_taken self.now (instance, port, n)) result }
    {
        for number in from..size {
            if !self.numbers.contains(&(instance, port, number)) {
                return Some(number);
            }
        }
        None
    }

    /// The least number that isn't taken at the port of an output, which is taken then.
    fn take(&mut self, tip: Tip) -> Result<Option<u32>, NoMemory>
        requires { IsLow self.old }
        ensures least { IfOk result (λ n. IsLeastUnused tip.size (λ m. is_taken self.old (tip.instance, tip.port, m)) n) }
        ensures taken { IfOk result (λ n. (q : ℕ × ℕ × ℕ) → is_taken self.new q ≡ (is_taken self.old q || is_mark tip n q)) }
        ensures low { OnOk result (IsLow self.new) }
    {
        let from = self.start(tip);
        match self.least(tip.instance, tip.port, tip.size, from) {
            Some(number) => {
                self.numbers.insert((tip.instance, tip.port, number))?;
                self.lows.insert((tip.instance, tip.port), number)?;
                Ok(Some(number))
            }
            None => {
                self.lows.insert((tip.instance, tip.port), tip.size)?;
                Ok(None)
            }
        }
    }

    /// A number below which all are taken at the port of an output.
    fn start(&self, tip: Tip) -> u32
        requires { IsLow self.now }
        ensures { (n : ℕ) → n < result → is_taken self.now (tip.instance, tip.port, n) ≡ true }
    {
        match self.lows.get(&(tip.instance, tip.port)) {
            Some(low) => *low,
            None => 0,
        }
    }

    /// The number of the next end.
    pub fn give(&mut self, tip: Tip) -> Result<Option<u32>, NoMemory>
        requires { IsLow self.old }
        ensures given { IfOk result (λ n. IsGiven self.old tip n (plain_source tip)) }
        ensures taken { IfOk result (λ n. AreTaken self.old self.new tip n) }
        ensures low { OnOk result (IsLow self.new) }
    {
        match tip.written {
            Some(written) => Ok(number_below(tip.size, written.number)),
            None => {
                if tip.begins {
                    self.take(tip)
                } else {
                    Ok(Some(0))
                }
            }
        }
    }
}
