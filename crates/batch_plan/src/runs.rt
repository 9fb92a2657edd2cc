//! The runs from an address on.

ghost use Rattle.std.specs.Prelude.{◌≡◌, ◌≢◌, ◌+◌, ◌*◌, ◌^◌, ◌<◌, IsSome, MatchOption, OnSome};
ghost use Rattle.batch_plan.specs.Batches.{IsRunBy};
ghost use Rattle.templates.specs.Code.{Ascends, code_of};
ghost use Rattle.templates.specs.Runs.{IsRun, reach_at};
ghost use Rattle.templates.specs.WholePlan.{IsLongestRun};

use crate::stretches::RunPrefix;
use rv32_decode::Reg;
use templates::Code;

/// A run, or none.
#[derive(Clone, Copy, PartialEq, Eq)]
pub(crate) struct BatchRun {
    /// 0 where there is none.
    pub words: u8,
    /// The base register of its accesses.
    pub base: Reg,
}

/// The longest run from an address on.
pub(crate) fn longest_run(code: &Code, address: u32) -> BatchRun
    requires ascends { Ascends 0 code.now }
    ensures longest { IsLongestRun (code_of code.now) address result.words }
    ensures base { result.words ≢ 0
        → result.base ≡ (reach_at (code_of code.now) address result.words).base }
    ensures low { address + 4 * result.words < 2 ^ 32 }
{
    let mut longest = BatchRun {
        words: 0,
        base: Reg::ZERO,
    };
    let mut stretch = match RunPrefix::begin(code, address) {
        Some(stretch) => stretch,
        None => return longest,
    };
    for words in 1..16 {
        stretch = match stretch.longer(code, address, words) {
            Some(stretch) => stretch,
            None => return longest,
        };
        if stretch.ends {
            longest = BatchRun {
                words: words + 1,
                base: stretch.base(),
            };
        }
    }
    longest
}

/// The base register of the accesses of a run of `words` words from an address on; None exactly
/// where these words are no run.
pub fn run_base(code: &Code, address: u32, words: u8) -> Option<Reg>
    requires ascends { Ascends 0 code.now }
    ensures value { MatchOption result (IsRun (code_of code.now) address words → ⊥)
        (IsRunBy (code_of code.now) address words) }
    ensures code_word { OnSome result (IsSome (code_of code.now address)) }
{
    if !(2..=16).contains(&words) {
        return None;
    }
    let mut stretch = RunPrefix::begin(code, address)?;
    for count in 1..words {
        stretch = stretch.longer(code, address, count)?;
    }
    if stretch.ends {
        Some(stretch.base())
    } else {
        None
    }
}
