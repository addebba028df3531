// The tags of a message's name, which stand above it.
pub const PLAIN: u32 = 0;

pub const TWO_WAY: u32 = 1;

pub const RESOLVE: u32 = 2;

pub const REGISTER: u32 = 3;
