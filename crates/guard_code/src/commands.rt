// The commands of a guard that the code tells apart by name.

pub const GUARD: u32 = 0x15;

pub const CONST: u32 = 0x20;

pub const VAR: u32 = 0x21;

pub const COUNT: u32 = 0x22;

pub const ADD: u32 = 0x23;

pub const SUB: u32 = 0x24;

pub const LESS: u32 = 0x25;

pub const ATMOST: u32 = 0x26;

pub const EQUAL: u32 = 0x27;

pub const NOT: u32 = 0x28;

pub const AND: u32 = 0x29;

pub const OR: u32 = 0x2A;

pub const IF: u32 = 0x2B;

pub const SUM: u32 = 0x2C;

pub const DIFFERENT: u32 = 0x2E;
