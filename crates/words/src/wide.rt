// The numbers of the scratch form of a script, under the names that specs/Wide.antt has them by.
// Kinds are below this, and a payload stands behind it.
pub const KINDS: u64 = 256;

// Names are below this.
pub const LIMIT: u64 = 4096;

// Where the third of three names stands.
pub const THIRD: u64 = LIMIT * LIMIT;

// Signatures are below the first, a name and a number of parameters; three of them in one number are below the second.
pub const SIGNED: u64 = LIMIT * 4;

pub const THREE_SIGNED: u64 = SIGNED * SIGNED * SIGNED;

// Where a method's parameters stand, behind its signature.
pub const PARAMS: u64 = SIGNED;

// Counts of fields and of methods are below this, as in a table.
pub const DIGIT: u64 = layout::DIGIT as u64;
