// The kinds of words, by which the number above a word's payload tells what the word is. They stay numbers: any word may be lent, most numbers are no
// kind, and each function tells a few of them from all others, which an enum with a case for each kind would not make plainer.

// Values, and a variable.
pub const NULL: u32 = 1;

pub const NUMBER: u32 = 2;

pub const REFERENCE: u32 = 3;

pub const VARIABLE: u32 = 6;

// Operators and forms that a state has too.
pub const PLUS: u32 = 7;

pub const PERCENT: u32 = 8;

pub const GET: u32 = 9;

pub const SET: u32 = 10;

pub const LET: u32 = 11;

pub const FUTURE: u32 = 12;

pub const CALL: u32 = 13;

pub const SEND: u32 = 14;

pub const OBJECT: u32 = 15;

pub const ISOLATE: u32 = 16;

pub const ACTOR: u32 = 17;

pub const SAME: u32 = 18;

// What a script writes with `if`.
pub const CHOOSE: u32 = 19;

// Forms that a table has and a load expands.
pub const ASK: u32 = 64;

pub const FN: u32 = 65;

pub const RESOLVE: u32 = 66;

pub const WHEN: u32 = 67;

pub const SEQ: u32 = 68;

// Headers: of a field, of a line that defines a word, and of a method, whose header has no payload of its own behind it but for its parameters.
pub const FIELD: u32 = 128;

pub const DEFINITION: u32 = 130;

pub const METHOD: u32 = 192;
