// The kinds of entities, as the head of a slot begins with them.
pub const OBJECT: u32 = 1;

pub const ISOLATE: u32 = 2;

// A future without a value, and one with it.
pub const OPEN: u32 = 3;

pub const RESOLVED: u32 = 4;

pub const RESOLVER: u32 = 5;
