// How tables and states stand in words: definitions, all of them to be believed, in specs/. The code here is the numbers of the layout,
// under the names that specs/Numbers.antt has them by.
#![tactic(auto)]

pub mod entity;
pub mod kind;
pub mod tag;

// Where a word's kind stands, and the greatest number below it; headers begin at the last.
pub const PAYLOAD: u32 = 16777216;

pub const MOST: u32 = PAYLOAD - 1;

pub const HEADER: u32 = kind::FIELD * PAYLOAD;

// A method's header begins with the third of these.
pub const METHOD_UNIT: u32 = 64 * PAYLOAD;

// Words with the payload 0, by their kinds.
pub const NULL: u32 = kind::NULL * PAYLOAD;

pub const NUMBER: u32 = kind::NUMBER * PAYLOAD;

pub const REFERENCE: u32 = kind::REFERENCE * PAYLOAD;

pub const VARIABLE: u32 = kind::VARIABLE * PAYLOAD;

pub const SET: u32 = kind::SET * PAYLOAD;

pub const LET: u32 = kind::LET * PAYLOAD;

pub const FUTURE: u32 = kind::FUTURE * PAYLOAD;

pub const CALL: u32 = kind::CALL * PAYLOAD;

pub const SEND: u32 = kind::SEND * PAYLOAD;

// Words that a load or a move writes: `this` and the hidden words as variables, lets of these, and a future of .f and .r.
pub const THIS: u32 = VARIABLE;

pub const VAR_T: u32 = VARIABLE + 1;

pub const VAR_F: u32 = VARIABLE + 2;

pub const VAR_R: u32 = VARIABLE + 3;

pub const VAR_L: u32 = VARIABLE + 4;

pub const VAR_X: u32 = VARIABLE + 6;

pub const LET_T: u32 = LET + 1;

pub const LET_R: u32 = LET + 3;

pub const LET_L: u32 = LET + 4;

pub const LET_S: u32 = LET + 5;

pub const FUTURE_FR: u32 = FUTURE + 2 + 3 * NAME_LIMIT;

// A function: an object with one method, `apply`, whose header has the parameter 0 here.
pub const FUNCTION: u32 = kind::OBJECT * PAYLOAD + DIGIT;

pub const APPLY_HEADER: u32 = 3 * METHOD_UNIT
    + 7
    + NAME_LIMIT
    + NO_NAME * SECOND_PLACE
    + NO_NAME * THIRD_PLACE;

// A call and a send of .resolve, a send of .register and one of `apply`, each with one argument.
pub const CALL_RESOLVE: u32 = CALL + tag::RESOLVE * NAME_LIMIT + TAGGED_LIMIT;

pub const SEND_RESOLVE: u32 = SEND + tag::RESOLVE * NAME_LIMIT + TAGGED_LIMIT;

pub const SEND_REGISTER: u32 = SEND + tag::REGISTER * NAME_LIMIT + TAGGED_LIMIT;

pub const SEND_APPLY: u32 = SEND + 7 + TAGGED_LIMIT;

// Names stand in seven bits; the last such number is no name.
pub const NAME_LIMIT: u32 = 128;

pub const NO_NAME: u32 = 127;

// The tags of a message's name, and the numbers of parameters; where a message's number of arguments stands, and a method's parameters.
pub const TAG_LIMIT: u32 = 4;

pub const TAGGED_LIMIT: u32 = NAME_LIMIT * TAG_LIMIT;

pub const SECOND_PLACE: u32 = TAGGED_LIMIT * NAME_LIMIT;

pub const THIRD_PLACE: u32 = SECOND_PLACE * NAME_LIMIT;

// Two, three and four names are below these.
pub const PAIR_LIMIT: u32 = NAME_LIMIT * NAME_LIMIT;

pub const PLACES_LIMIT: u32 = PAIR_LIMIT * NAME_LIMIT;

pub const NAMES_LIMIT: u32 = PAIR_LIMIT * PAIR_LIMIT;

// In a reference: the series stands behind the number, the actor behind both.
pub const NUMBER_LIMIT: u32 = 65536;

pub const OWNER_UNIT: u32 = 2 * NUMBER_LIMIT;

pub const OWNER_LIMIT: u32 = 128;

// The counts of fields and of methods, and the kind of an entity, are below the first; two of them are below the second.
pub const DIGIT: u32 = 8;

pub const DIGITS: u32 = DIGIT * DIGIT;

// Where the number of a slot stands in its head, behind three of them.
pub const SLOT_UNIT: u32 = DIGIT * DIGITS;

// In an actor's part: the moves, the numbers of entities and messages, the words of the expression.
pub const MOVES: usize = 0;

pub const MADE_COUNT: usize = 1;

pub const COPIED_COUNT: usize = 2;

pub const INBOX_COUNT: usize = 3;

pub const WAITING_COUNT: usize = 4;

pub const LENGTH: usize = 5;

// The regions of a part.
pub const EXPR: usize = 16;

pub const EXPR_SIZE: usize = 512;

pub const MESSAGE: usize = 6;

pub const QUEUE_SIZE: usize = 16 * MESSAGE;

pub const INBOX: usize = EXPR + EXPR_SIZE;

pub const WAITING: usize = INBOX + QUEUE_SIZE;

pub const SLOT: usize = 8;

// Where a slot has the words of its methods.
pub const SLOT_BODY: usize = 6;

// The slots of both series in a part, and in the parts of a state.
pub const SLOT_COUNT: usize = 32 + 16;

pub const STATE_SLOTS: usize = 4 * SLOT_COUNT;

pub const MADE_SIZE: usize = 32 * SLOT;

pub const COPIED_SIZE: usize = 16 * SLOT;

pub const MADE: usize = WAITING + QUEUE_SIZE;

pub const COPIED: usize = MADE + MADE_SIZE;

pub const BODIES: usize = COPIED + COPIED_SIZE;

pub const BODIES_SIZE: usize = 1536;

pub const REST: usize = BODIES + BODIES_SIZE;

pub const REST_SIZE: usize = 560;

// A state: its head, and where the parts begin; the words of a part, of all.
pub const HEAD: usize = 256;

pub const PART: usize = REST + REST_SIZE;

pub const STATE: usize = 16384;

// A table: where its lines begin, and its words.
pub const LINES: usize = 256;

pub const TABLE: usize = 1280;
