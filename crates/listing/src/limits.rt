// The limits of a listing, each named once; specs/Limits.antt has the same for the definitions.

pub const EDITION: u32 = 1;

pub const SHAPES: u32 = 64;

pub const FIELDS: u32 = 16;

pub const LABELS: u32 = 128;

pub const STACK: u32 = 16;

pub const REGISTERS: u32 = 15;

pub const ITEMS: u32 = 1024;

pub const BYTES: usize = 65536;

// The greatest level, register or field offset, immediate, and item number.
pub const TOP_LEVEL: u32 = 255;

pub const TOP_PART: u32 = 15;

pub const TOP_IMMEDIATE: u32 = 65535;

pub const TOP_ITEM: u32 = 17;
