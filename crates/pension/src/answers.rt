// What the C calls answer, as pension.h declares it: refusals and members in 32 bits, money in pence in 64, offsets,
// lengths and counts as the machine has them. A refusal stays a number beside the figures, and the shares' figures stand side by side,
// since the C interface has them so.

// A quote: refusal 0 and the figures of up to four pensions, or the refusal and zeros.
#[repr(C)]
#[derive(Clone, Copy)]
pub struct PensionQuote {
    pub refusal: u32,
    pub member: u32,
    pub total: u64,
    pub lump: [u64; 4],
    pub remaining: [u64; 4],
    pub second: [u64; 4],
}

// The check of a register: refusal 0 or 11, and with 11 the offset of what is bad.
#[repr(C)]
#[derive(Clone, Copy)]
pub struct PensionChecked {
    pub refusal: u32,
    pub offset: usize,
}

// A filing: refusal 0 and the used length past the new line, or the refusal and 0.
#[repr(C)]
#[derive(Clone, Copy)]
pub struct PensionFiled {
    pub refusal: u32,
    pub used: usize,
}

// Filings of the lines of a text: the used length from then on, and how many lines there were.
#[repr(C)]
#[derive(Clone, Copy)]
pub struct PensionFiledLines {
    pub used: usize,
    pub lines: usize,
}

// A line found: refusal 0 with its offset and length in the register, or the refusal and zeros.
#[repr(C)]
#[derive(Clone, Copy)]
pub struct PensionFound {
    pub refusal: u32,
    pub offset: usize,
    pub length: usize,
}

// A member's newest line: as a line found, and how many lines were compared, from the newest back: 0 under 11, all lines under
// 14.
#[repr(C)]
#[derive(Clone, Copy)]
pub struct PensionFoundMember {
    pub refusal: u32,
    pub offset: usize,
    pub length: usize,
    pub compared: usize,
}

// The trivial commutation of a small pension: refusal 0 and the lump sum, or refusal 15 and 0.
#[repr(C)]
#[derive(Clone, Copy)]
pub struct PensionCommuted {
    pub refusal: u32,
    pub lump: u64,
}

// A register written into a buffer: refusal 0 and its used length, or the refusal and 0.
#[repr(C)]
#[derive(Clone, Copy)]
pub struct PensionWritten {
    pub refusal: u32,
    pub used: usize,
}
