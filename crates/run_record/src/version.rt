//! The versions of a record's text.

ghost use Rattle.std.specs.Prelude.{◌≡◌, ◌+◌, ◌^◌, ◌<◌, ◌≤◌, IfSome, MatchOption};
ghost use Rattle.run_record.specs.Rules.{HasBadStamp, number_of_version, stamp_of};
ghost use Rattle.run_record.specs.Text as model;
ghost use Rattle.run_record.specs.declared.version.Version.{Version as Versions};

use crate::line::{NUMBER_END, TakeLine};
use node_model::Entry;

/// A version of a record's text.
#[derive(Clone, Copy)]
pub enum Version {
    /// Takes have their stamps.
    First,
    /// The number of rewritten words is named, and takes have gaps.
    Second,
}

impl Version {
    /// The version of this number.
    pub(crate) fn of_number(number: u64) -> Option<Version>
        ensures some { IfSome result (λ v. number ≡ number_of_version v) }
        ensures none { (v : Versions) → number ≡ number_of_version v → result ≡ Some v }
    {
        match number {
            1 => Some(Version::First),
            2 => Some(Version::Second),
            _ => None,
        }
    }

    /// The version of a record that names this number of rewritten words.
    pub(crate) fn of_code(code: Option<u32>) -> Version
        ensures value { result ≡ model.version_of code }
    {
        match code {
            None => Version::First,
            Some(_words) => Version::Second,
        }
    }

    /// The first line of a text.
    pub(crate) fn line(self) -> &'static [u8]
        ensures value { result.now ≡ model.version_line self }
    {
        match self {
            Version::First => b"shasta-record 1\n",
            Version::Second => b"shasta-record 2\n",
        }
    }

    /// What the line of a take says that comes after this stamp.
    pub(crate) fn line_of(self, last: u64, entry: Entry) -> TakeLine
        requires stamp { last + entry.words + 1 ≤ entry.stamp }
        ensures value { result ≡ model.told_of self last entry }
    {
        let stamp_or_gap = match self {
            Version::First => entry.stamp,
            Version::Second => entry.stamp - (last + entry.words + 1),
        };
        TakeLine {
            stamp_or_gap,
            from: u64::from(entry.from),
            words: entry.words,
        }
    }

    /// The stamp of a take after this one, by its line; None exactly where it may not have that.
    pub(crate) fn stamp_of(self, last: u64, take: TakeLine) -> Option<u64>
        requires last { last < 2 ^ 63 }
        requires stamp_or_gap { take.stamp_or_gap < 2 ^ 63 }
        requires words { take.words < 2 ^ 63 }
        ensures value { MatchOption result (HasBadStamp self last take)
            (λ s. s ≡ stamp_of self last take) }
        ensures behind { IfSome result (λ s. last + take.words + 1 ≤ s) }
        ensures low { IfSome result (λ s. s < 2 ^ 63) }
    {
        let least = last + take.words + 1;
        match self {
            Version::First => {
                if take.stamp_or_gap < least {
                    return None;
                }
                Some(take.stamp_or_gap)
            }
            Version::Second => {
                if least >= NUMBER_END || take.stamp_or_gap >= NUMBER_END - least {
                    return None;
                }
                Some(least + take.stamp_or_gap)
            }
        }
    }
}
