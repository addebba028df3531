// The kinds of the reserved words: the numbers that the words of a table have them by.
pub const NULL: u8 = 1;

pub const THIS: u8 = 6;

pub const PLUS: u8 = 7;

pub const PERCENT: u8 = 8;

pub const GET: u8 = 9;

pub const SET: u8 = 10;

pub const LET: u8 = 11;

pub const FUTURE: u8 = 12;

pub const CALL: u8 = 13;

pub const SEND: u8 = 14;

pub const OBJECT: u8 = 15;

pub const ISOLATE: u8 = 16;

pub const ACTOR: u8 = 17;

pub const SAME: u8 = 18;

pub const IF: u8 = 19;

pub const ASK: u8 = 64;

pub const FN: u8 = 65;

pub const RESOLVE: u8 = 66;

pub const WHEN: u8 = 67;

pub const SEQ: u8 = 68;

pub const FIELD: u8 = 128;

pub const DEF: u8 = 130;

pub const METHOD: u8 = 192;
