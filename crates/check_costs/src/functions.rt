//! The functions of addresses that ascend.

ghost use Rattle.std.specs.Prelude.{map, IfOk};
ghost use Rattle.elf_symbols.specs.Given.{symbol_of};
ghost use Rattle.check_costs.specs.Sweep.{AreInOrder};

use elf_symbols::{Symbol, Symbols};
use std::alloc::{AllocError, Global};

/// A function: where it begins, where it ends, and how many come after it in the table.
#[derive(Clone, Copy)]
pub(crate) struct Function {
    begin: u32,
    end: u64,
    later: usize,
}

impl Function {
    ghost use Rattle.std.specs.Prelude.{◌≡◌, ◌+◌};

    /// The function of `size` bytes from an address on.
    fn of(begin: u32, size: u32, later: usize) -> Function
        ensures begin { result.begin ≡ begin }
        ensures end { result.end ≡ begin + size }
        ensures later { result.later ≡ later }
    {
        Function {
            begin,
            end: u64::from(begin) + u64::from(size),
            later,
        }
    }
}

/// The functions that an executable names, while one goes through its addresses.
#[derive(Drop)]
pub(crate) struct Functions {
    /// By where they begin; of those that begin together the first of the table is the last.
    sorted: Vec<Function>,
    /// How many of them have begun.
    begun: usize,
    /// Of these the ones that may not have ended, in their order.
    running: Vec<Function>,
}

impl Functions {
    ghost use Rattle.std.specs.Prelude.{◌≡◌, ◌≤◌, ℕ, List, length, IfOk, OnOk};
    ghost use Rattle.elf_symbols.specs.Symbols.{Symbol as OfTable};
    ghost use Rattle.check_costs.specs.Counts.{function_of};
    ghost use Rattle.check_costs.specs.Sweep.{HasCome, HasBegun, AreEnough};

    /// Those that an executable names, from address 0 on.
    pub(crate) fn new(alloc: Global, symbols: &Symbols<'_>) -> Result<Functions, AllocError>
        ensures { IfOk result (λ f. HasCome symbols.now 0 f) }
    {
        Ok(Functions {
            sorted: in_order(alloc, symbols.functions())?,
            begun: 0,
            running: Vec::new(alloc),
        })
    }

    /// The number of the function that has the byte at an address, or that after the last. No
    /// address is below the one before.
    pub(crate) fn at(&mut self, address: u32) -> Result<usize, AllocError>
        requires come { (symbols : List OfTable) × (before : ℕ)
            × HasCome symbols before self.old × (before ≤ address) }
        ensures come { (symbols : List OfTable) (before : ℕ) → HasCome symbols before self.old
            → before ≤ address → OnOk result (HasCome symbols address self.new) }
        ensures function { (symbols : List OfTable) (before : ℕ)
            → HasCome symbols before self.old → before ≤ address
            → IfOk result (λ n. n ≡ function_of symbols address) }
    {
        self.begin(address)?;
        let count = self.count_running(address);
        self.running.truncate(count);
        if count == 0 {
            return Ok(self.sorted.len());
        }
        Ok(self.sorted.len() - 1 - self.running[count - 1].later)
    }

    /// Takes in the functions that begin up to an address.
    fn begin(&mut self, address: u32) -> Result<(), AllocError>
        requires within { self.old.begun ≤ length self.old.sorted.items }
        ensures begun { OnOk result ((symbols : List OfTable) (before : ℕ)
            → HasCome symbols before self.old → before ≤ address
            → HasBegun symbols address self.new) }
    {
        for number in self.begun..self.sorted.len() {
            let function = self.sorted[number];
            if function.begin > address {
                return Ok(());
            }
            self.running.push(function)?;
            self.begun = number + 1;
        }
        Ok(())
    }

    /// How many of those that run are left where those at their end that end up to an address are
    /// taken away.
    fn count_running(&self, address: u32) -> usize
        ensures { AreEnough address self.now.running.items result }
    {
        let mut count = self.running.len();
        while count > 0 {
            if self.running[count - 1].end > u64::from(address) {
                return count;
            }
            count -= 1;
        }
        count
    }
}

/// Functions in the order in which a sweep comes to them.
fn in_order(alloc: Global, functions: &[Symbol<'_>]) -> Result<Vec<Function>, AllocError>
    ensures { IfOk result (λ v. AreInOrder (map symbol_of functions.now) v.items) }
{
    let mut sorted = Vec::new(alloc);
    for later in 0..functions.len() {
        let symbol = functions[functions.len() - 1 - later];
        sorted.push(Function::of(symbol.value, symbol.size, later))?;
    }
    sorted.sort_by_key(|f| f.begin)?;
    Ok(sorted)
}
