//! The rewritten words of small programs.

use elf32_read::read_elf;
use exec_map::{Program, accept};
use jump_map::Image;
use rewriter::{Options, rewrite};
use std::alloc::Global;
use std::test::Fail;
use test_calls::files::executable;
use test_calls::samples::HI;

/// A program, a place of it, where the sequences of the place begin, of how many bytes its batch
/// is, and the words of the sequences and of what follows.
struct Sequence {
    code: &'static str,
    place: u32,
    at: u32,
    batch: u32,
    words: &'static [u32],
}

static SEQUENCES: [Sequence; 10] = [
    // the whole of a program that writes, from the word before its first place
    Sequence {
        code: HI,
        place: 0x00010000,
        at: 0xa0000004,
        batch: 0,
        words: &[
            0x000205b7, 0x00100513, 0x00300613, 0x04000893, 0x0000300b, 0x00000513, 0x05d00893,
            0x0000300b, 0x0000002b,
        ],
    },
    // its last place, which no word of the program has
    Sequence {
        code: HI,
        place: 0x00010020,
        at: 0xa0000024,
        batch: 0,
        words: &[0x0000002b],
    },
    // the load spills two registers, and tests the readable bit of the state byte
    Sequence {
        code: "addi x17, x0, 93; lui x10, 0x20; lw x10, 0(x10); ecall",
        place: 0x00010008,
        at: 0xa000000c,
        batch: 0,
        words: &[
            0xfe102e23, 0xfe202c23, 0x00050093, 0x80000137, 0x0060d093, 0x002080b3, 0x0000c083,
            0x0020f093, 0x00008463, 0x0005010b, 0x00052503, 0xffc02083, 0xff802103, 0x0000300b,
        ],
    },
    // the load spills one register, and looks at its value
    Sequence {
        code: "lui x5, 0x20; lw x6, 0(x5); ecall",
        place: 0x00010004,
        at: 0xa0000008,
        batch: 0,
        words: &[
            0xfe102e23, 0x00028093, 0x0000c863, 0x0002a303, 0xf0300093, 0x00131663, 0x0002810b,
            0x0002a303, 0xffc02083, 0x0000300b,
        ],
    },
    // the last two may close a loop, and poll
    Sequence {
        code: "jal x0, there; there:; beq x0, x0, there; jalr x0, 0(x0)",
        place: 0x00010000,
        at: 0xa0000004,
        batch: 0,
        words: &[
            0x00010037, 0x00400013, 0x0040006f, 0x0000200b, 0x00001463, 0xff9ff06f, 0x0000200b,
            0x0000400b, 0x0000002b,
        ],
    },
    Sequence {
        code: "lui x5, 0x20; lr.w x6, (x5); ecall",
        place: 0x00010004,
        at: 0xa0000008,
        batch: 0,
        words: &[
            0xfe102e23, 0xfe202c23, 0x00028093, 0x80000137, 0x0060d093, 0x002080b3, 0x0000c083,
            0x0020f093, 0x00008463, 0x0002810b, 0x1002a32f, 0xffc02083, 0xff802103, 0x0000300b,
        ],
    },
    Sequence {
        code: "lui x5, 0x20; sc.w x6, x7, (x5); ecall",
        place: 0x00010004,
        at: 0xa0000008,
        batch: 0,
        words: &[0x0002e00b, 0x1872a32f, 0x0000300b],
    },
    // tests the whole state byte
    Sequence {
        code: "lui x5, 0x20; amoadd.w x6, x7, (x5); ecall",
        place: 0x00010004,
        at: 0xa0000008,
        batch: 0,
        words: &[
            0xfe102e23, 0xfe202c23, 0x00028093, 0x80000137, 0x0060d093, 0x002080b3, 0x0000c083,
            0x00008463, 0x0002910b, 0x0072a32f, 0xffc02083, 0xff802103, 0x0000300b,
        ],
    },
    // a run of two loads, by dead registers; after it the single sequences
    Sequence {
        code: "lui x5, 0x20; addi x6, x0, 1; lui x28, 0x10; jalr x1, 20(x28); lw x6, 0(x5);
               lw x7, 4(x5); add x10, x6, x7; addi x17, x0, 93; ecall",
        place: 0x00010010,
        at: 0xa0000018,
        batch: 76,
        words: &[
            0x00028313, 0x800003b7, 0x00635313, 0x00730333, 0x00034303, 0x00728513, 0x00655513,
            0x00750533, 0x00054503, 0x00a36333, 0x00237313, 0x00030a63, 0x00028313, 0x00728513,
            0x00a3500b, 0x0100006f, 0x0002a303, 0x0042a383, 0x03c0006f, 0x00028393, 0x0003c863,
            0x0002a303, 0xf0300393, 0x00731663, 0x0002810b, 0x0002a303, 0x00428513, 0x00054863,
            0x0042a383, 0xf0300513, 0x00a39663, 0x0042810b, 0x0042a383, 0x00730533,
        ],
    },
    // a run of two stores spills three registers
    Sequence {
        code: "lui x5, 0x20; sw x0, 0(x5); sb x0, 4(x5); ecall",
        place: 0x00010004,
        at: 0xa0000008,
        batch: 108,
        words: &[
            0xfe102e23, 0xfe202c23, 0xfe302a23, 0x00028093, 0x80000137, 0x0060d093, 0x002080b3,
            0x0000c083, 0x00428193, 0x0061d193, 0x002181b3, 0x0001c183, 0x0030e0b3, 0x00008a63,
            0x00028093, 0x00428193, 0x0030d08b, 0x01c0006f, 0xffc02083, 0xff802103, 0xff402183,
            0x0002a023, 0x00028223, 0x0700006f, 0xffc02083, 0xff802103, 0xff402183, 0xfe102e23,
            0xfe202c23, 0x00028093, 0x80000137, 0x0060d093, 0x002080b3, 0x0000c083, 0x00008463,
            0x0002910b, 0x0002a023, 0xffc02083, 0xff802103,
        ],
    },
];

/// Whether the image has these words, and maps the place to the first word after its batch.
fn has_words(image: &Image, sequence: &Sequence) -> bool {
    let mut at = sequence.at;
    for word in sequence.words {
        if image.word_at(at) != Some(*word) {
            return false;
        }
        at = at.wrapping_add(4);
    }
    image.new_of(sequence.place) == Some(sequence.at.wrapping_add(sequence.batch))
}

/// The rewritten program's words, before the first place and of the sequence, and how many words it
/// has where all are known.
fn is_rewritten(image: &Image, sequence: &Sequence) -> bool {
    image.word_at(0xa0000000) == Some(0x0000102b)
        && has_words(image, sequence)
        && (sequence.code != HI || image.len() == 10)
}

/// Whether a program is rewritten so.
fn is_so(alloc: Global, program: &Program<'_>, sequence: &Sequence) -> Result<bool, Fail> {
    let rewritten = rewrite(alloc, program, Options { batch: true })?;
    Ok(is_rewritten(rewritten.image(), sequence))
}

/// Whether the place stands at its sequences where there are no batches.
fn is_single(alloc: Global, program: &Program<'_>, sequence: &Sequence) -> Result<bool, Fail> {
    let rewritten = rewrite(alloc, program, Options { batch: false })?;
    Ok(rewritten.image().new_of(sequence.place) == Some(sequence.at))
}

/// Fails the test where the program of a sequence is rewritten otherwise.
fn try_sequence(alloc: Global, sequence: &Sequence) -> Result<(), Fail> {
    let file = executable(alloc, sequence.code, b"\x05", 64)?;
    let elf = read_elf(alloc, &file)?;
    let program = accept(alloc, &elf)?;
    if is_so(alloc, &program, sequence)? && is_single(alloc, &program, sequence)? {
        return Ok(());
    }
    let place = sequence.place;
    Err(Fail::new(format_args!("another sequence at {place}")))
}

#[test]
fn rewrites_places(rt: HostRuntime) -> Result<(), Fail> {
    for sequence in &SEQUENCES {
        try_sequence(rt.alloc(), sequence)?;
    }
    Ok(())
}
