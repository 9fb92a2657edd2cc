//! Programs and texts that several tables use.

/// How the program is called.
pub const USAGE: &str = "usage: shasta rewrite IN OUT [--no-batch]
       shasta list IN
       shasta one IN [--nodes N] [--order K] [--budget B] [--layout FILE]
       shasta sim IN [--nodes N] [--order K] [--budget B] [--layout FILE] \
    [--code FILE | --verify FILE] [--no-batch] [--brief] [--loss L] [--per-node M]
       shasta run IN [--nodes N] [--record FILE] [--budget B] [--layout FILE] \
    [--code FILE | --verify FILE] [--no-batch] [--brief]
       shasta replay IN RECORD [--verify FILE] [--brief]
       shasta gen NUMBER OUT
       shasta asm TEXT OUT
";

/// Processor 1 reads a word.
pub const READS: &str = "lui x5, 0x20
beq x10, x0, end
lw x6, 0(x5)
end:
addi x10, x0, 0
addi x17, x0, 93
ecall
";

/// What it ends with: the node of processor 1 asks the other for the block.
pub const READ: &str = "output 0

processor 0 exit 0
processor 1 exit 0
node 0 read 0 exclusive 0 upgrade 0 false 0 invalidations 0 fallbacks 0 messages 2
node 1 read 1 exclusive 0 upgrade 0 false 0 invalidations 0 fallbacks 0 messages 2
";

/// Processor 0 writes the 200 bytes from 0x20ffc, and processor 1 stores 0x42 to each of them.
pub const STORES: &str = "lui x5, 0x21
addi x5, x5, -4
bne x10, x0, other
addi x10, x0, 1
addi x11, x5, 0
addi x12, x0, 200
addi x17, x0, 64
ecall
jal x0, end
other:
addi x6, x0, 200
addi x7, x0, 66
again:
sb x7, 0(x5)
addi x5, x5, 1
addi x6, x6, -1
bne x6, x0, again
end:
addi x10, x0, 0
addi x17, x0, 93
ecall
";

/// Processor 0 waits until processor 1 has stored to a word.
pub const WAITS: &str = "lui x5, 0x20
bne x10, x0, other
wait:
lw x6, 0(x5)
beq x6, x0, wait
jal x0, end
other:
addi x6, x0, 1
sw x6, 0(x5)
end:
addi x10, x0, 0
addi x17, x0, 93
ecall
";

/// What it ends with, without the counts.
pub const WAITED: &str = "output 0\n\nprocessor 0 exit 0\nprocessor 1 exit 0\n";

/// Processor 0 stays where it is, and processor 1 reads a word.
pub const STAYS: &str = "lui x5, 0x20
beq x10, x0, stay
lw x6, 0(x5)
addi x10, x0, 0
addi x17, x0, 93
ecall
stay:
jal x0, stay
";

/// What it ends with, of a thousand words.
pub const STAYED: &str = "output 0

processor 0 stopped 1000
processor 1 exit 0
node 0 read 0 exclusive 0 upgrade 0 false 0 invalidations 0 fallbacks 0 messages 2
node 1 read 1 exclusive 0 upgrade 0 false 0 invalidations 0 fallbacks 0 messages 2
";

/// Its layout: the bytes that are written lie in blocks of 4096, of 128 and of 64 bytes.
pub const BLOCKS: &str = "0x20000 0x1000 4096 0\n0x21000 0x80 128 *\n";

/// A program that writes its three bytes of data and exits with code 0.
pub const HI: &str = "lui x11, 0x20
addi x10, x0, 1
addi x12, x0, 3
addi x17, x0, 64
ecall
addi x10, x0, 0
addi x17, x0, 93
ecall
";
