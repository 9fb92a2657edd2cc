//! Where a line stands.

ghost use Rattle.std.specs.Prelude.{◌≡◌, ◌^◌, ◌<◌, ◌≤◌, IfSome};
ghost use Rattle.rv32_lines.specs.Reading.{IsReadStatement};
ghost use Rattle.rv32_lines.specs.Statements.{Statement as Statements};
ghost use Rattle.rv32_asm.specs.Places.{appends};

use rv32_lines::Statement;

/// The last segment so far.
#[derive(Clone, Copy)]
pub(crate) struct Open {
    pub flags: u32,
    /// Its first address.
    pub start: u32,
    /// How many bytes were appended to it.
    pub bytes: u128,
    /// How many zeros stand past them.
    pub zeros: u128,
    /// Whether a line of zeros has ended its bytes.
    pub is_closed: bool,
}

/// The segments and the bytes so far.
#[derive(Clone, Copy)]
pub(crate) struct SegmentsSoFar {
    pub segments: u128,
    pub appended: u128,
    pub last: Option<Open>,
}

/// How many bytes a statement appends, if it is one that appends.
pub(crate) fn appends(statement: &Statement<'_>) -> Option<u128>
    ensures value { (s : Statements) → IsReadStatement statement.now s → result ≡ appends s }
    ensures low { IfSome result (λ n. n ≤ 2 ^ 62) }
{
    match statement {
        Statement::Bytes { digits } => Some((digits.len() / 2) as u128),
        Statement::Word { .. } | Statement::Instruction { .. } => Some(4),
        Statement::Space { count } => Some(u128::from(*count)),
        _ => None,
    }
}

impl Open {
    ghost use Rattle.std.specs.Prelude.{◌≡◌, ◌+◌, ◌^◌, ◌<◌, ◌≤◌};
    ghost use Rattle.rv32_asm.specs.Places.{with_bytes, with_zeros, end_of};
    ghost use Rattle.rv32_asm.specs.Standing.{open_of};

    /// With bytes appended.
    fn with_bytes(self, count: u128) -> Open
        requires { self.bytes + count < 2 ^ 128 }
        ensures { open_of result ≡ with_bytes count (open_of self) }
    {
        Open {
            flags: self.flags,
            start: self.start,
            bytes: self.bytes + count,
            zeros: self.zeros,
            is_closed: self.is_closed,
        }
    }

    /// With zeros added.
    fn with_zeros(self, count: u128) -> Open
        requires { self.zeros + count < 2 ^ 128 }
        ensures { open_of result ≡ with_zeros count (open_of self) }
    {
        Open {
            flags: self.flags,
            start: self.start,
            bytes: self.bytes,
            zeros: self.zeros + count,
            is_closed: true,
        }
    }

    /// The address of the next byte.
    pub(crate) fn end(self) -> u128
        requires { self.bytes + self.zeros < 2 ^ 127 + 2 ^ 64 }
        ensures value { result ≡ end_of (open_of self) }
        ensures low { result < 2 ^ 127 + 2 ^ 65 }
    {
        u128::from(self.start) + self.bytes + self.zeros
    }
}

impl SegmentsSoFar {
    ghost use Rattle.std.specs.Prelude.{◌≡◌, ◌+◌, ◌^◌, ◌<◌, ◌≤◌, Some, IfSome};
    ghost use Rattle.rv32_lines.specs.Reading.{IsReadStatement};
    ghost use Rattle.rv32_lines.specs.Statements.{Statement as Statements, Segment, Zero};
    ghost use Rattle.rv32_asm.specs.Places.{first_place, here, behind, appended_to};
    ghost use Rattle.rv32_asm.specs.Standing.{place_of, counted, HasRoom};

    /// The place of the first line.
    pub(crate) fn first() -> SegmentsSoFar
        ensures value { place_of result ≡ first_place }
        ensures none { counted result ≡ 0 }
    {
        SegmentsSoFar {
            segments: 0,
            appended: 0,
            last: None,
        }
    }

    /// The address of the next byte.
    pub(crate) fn here(self) -> Option<u128>
        requires { counted self < 2 ^ 127 }
        ensures value { result ≡ here (place_of self) }
        ensures low { HasRoom result }
    {
        match self.last {
            Some(open) => Some(open.end()),
            None => None,
        }
    }

    /// The place after a statement.
    pub(crate) fn behind(self, statement: &Statement<'_>) -> SegmentsSoFar
        requires { counted self < 2 ^ 127 }
        ensures value { (s : Statements) → IsReadStatement statement.now s
            → place_of result ≡ behind (place_of self) s }
        ensures grows { counted result ≤ counted self + 2 ^ 63 }
    {
        match statement {
            Statement::Segment { flags, start } => self.with_segment(*flags, *start),
            Statement::Zero { count } => self.with_zeros(u128::from(*count)),
            _ => match appends(statement) {
                Some(count) => self.with_bytes(count),
                None => self,
            },
        }
    }

    /// The place at the start of a segment.
    fn with_segment(self, flags: u32, start: u32) -> SegmentsSoFar
        requires { counted self < 2 ^ 127 }
        ensures value { place_of result ≡ behind (place_of self) (Segment flags start) }
        ensures grows { counted result ≤ counted self + 1 }
    {
        SegmentsSoFar {
            segments: self.segments + 1,
            appended: self.appended,
            last: Some(Open {
                flags,
                start,
                bytes: 0,
                zeros: 0,
                is_closed: false,
            }),
        }
    }

    /// The place after zeros.
    fn with_zeros(self, count: u128) -> SegmentsSoFar
        requires room { counted self < 2 ^ 127 }
        requires low { count ≤ 2 ^ 62 }
        ensures value { place_of result ≡ behind (place_of self) (Zero count) }
        ensures grows { counted result ≤ counted self + count }
    {
        let last = match self.last {
            Some(open) => Some(open.with_zeros(count)),
            None => None,
        };
        SegmentsSoFar {
            segments: self.segments,
            appended: self.appended,
            last,
        }
    }

    /// The place after bytes.
    fn with_bytes(self, count: u128) -> SegmentsSoFar
        requires room { counted self < 2 ^ 127 }
        requires low { count ≤ 2 ^ 62 }
        ensures value { place_of result ≡ appended_to (place_of self) (Some count) }
        ensures grows { counted result ≤ counted self + count + count }
    {
        let last = match self.last {
            Some(open) => Some(open.with_bytes(count)),
            None => None,
        };
        SegmentsSoFar {
            segments: self.segments,
            appended: self.appended + count,
            last,
        }
    }
}
