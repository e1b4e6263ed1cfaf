// The rows of the table as numbers, each a sum of what it says: its fields, what stands behind them, what it means for names, and the lines below.
// A field: a term that is a variable, any node, a variable or a constant, a variable or an IRI.
const VARIABLE: u64 = 0x01;

const NODE: u64 = 0x11;

const PLAIN: u64 = 0x21;

const NAME: u64 = 0x31;

// Another field, which is no term.
const INTEGER: u64 = 0x62;

const LIMIT: u64 = 0x72;

const FLAG: u64 = 0x82;

const TEXT: u64 = 0x92;

const FORM: u64 = 0xe2;

// A field that counts lines below.
const COUNT: u64 = 0x03;

const CHOICE: u64 = 0x04;

// The second and the third field.
const SECOND: u64 = 0x100;

const THIRD: u64 = 0x1_0000;

// What stands behind the fields.
const HAS_COLUMNS: u64 = 0x100_0000;

const VARIABLES: u64 = 0x200_0000;

const CELLS: u64 = 0x300_0000;

const INTEGERS: u64 = 0x400_0000;

const VALUES: u64 = 0x500_0000;

const VALUE: u64 = 0x600_0000;

// The last pattern below hides its names; or the names of the line itself stay as they are.
const HIDES: u64 = 0x1000_0000;

const STAYS: u64 = 0x2000_0000;

// A group of lines: so many, as many as a number of the line says, or so many more.
const LINE: u64 = 1;

const TWO: u64 = 2;

const THREE: u64 = 3;

const FIRST_NUMBER: u64 = 4;

const SECOND_NUMBER: u64 = 8;

const MORE_BY_FIRST: u64 = 12;

const MORE_BY_SECOND: u64 = 16;

// And their sort.
const TRIPLES: u64 = 0;

const HEADERS: u64 = 0x20;

const PATTERNS: u64 = 0x40;

const EXPRESSIONS: u64 = 0x60;

const ROWS: u64 = 0x80;

const ORDERS: u64 = 0xa0;

const AGGREGATES: u64 = 0xc0;

const POSITIONS: u64 = 0x120;

const VALUE_ROWS: u64 = 0x140;

const PARTS: u64 = 0x160;

// The first, the next and the last group.
const BELOW: u64 = 0x1_0000_0000;

const NEXT: u64 = 0x200_0000_0000;

const LAST: u64 = 0x4_0000_0000_0000;

// The rows, by their words.
pub const OF_T: u64 = NODE + NAME * SECOND + NODE * THIRD;

pub const OF_COLS: u64 = VARIABLES;

pub const OF_BGP: u64 = COUNT + (FIRST_NUMBER + TRIPLES) * BELOW;

pub const OF_PATH: u64 = NODE + TEXT * SECOND + NODE * THIRD;

pub const OF_JOIN: u64 = (TWO + PATTERNS) * BELOW;

pub const OF_UNION: u64 = (TWO + PATTERNS) * BELOW;

pub const OF_MINUS: u64 = HIDES + (TWO + PATTERNS) * BELOW;

pub const OF_LEFTJOIN: u64 = CHOICE
    + (TWO + PATTERNS) * BELOW
    + (FIRST_NUMBER + EXPRESSIONS) * NEXT;

pub const OF_FILTER: u64 = (LINE + PATTERNS) * BELOW + (LINE + EXPRESSIONS) * NEXT;

pub const OF_GRAPH: u64 = NAME + (LINE + PATTERNS) * BELOW;

pub const OF_EXTEND: u64 = VARIABLE + (LINE + PATTERNS) * BELOW + (LINE + EXPRESSIONS) * NEXT;

pub const OF_VALUES: u64 = COUNT
    + COUNT * SECOND
    + (LINE + HEADERS) * BELOW
    + (SECOND_NUMBER + ROWS) * NEXT;

pub const OF_ORDERBY: u64 = COUNT + (LINE + PATTERNS) * BELOW + (FIRST_NUMBER + ORDERS) * NEXT;

pub const OF_PROJECT: u64 = HAS_COLUMNS + HIDES + (LINE + PATTERNS) * BELOW;

pub const OF_DISTINCT: u64 = (LINE + PATTERNS) * BELOW;

pub const OF_REDUCED: u64 = (LINE + PATTERNS) * BELOW;

pub const OF_SLICE: u64 = INTEGER + LIMIT * SECOND + (LINE + PATTERNS) * BELOW;

pub const OF_GROUP: u64 = COUNT
    + COUNT * SECOND
    + HIDES
    + (LINE + HEADERS) * BELOW
    + (LINE + PATTERNS) * NEXT
    + (SECOND_NUMBER + AGGREGATES) * LAST;

pub const OF_SERVICE: u64 = NAME + FLAG * SECOND + STAYS + (LINE + PATTERNS) * BELOW;

pub const OF_TERM: u64 = PLAIN;

pub const OF_BOUND: u64 = VARIABLE;

pub const OF_EXISTS: u64 = (LINE + PATTERNS) * BELOW;

pub const OF_CALL: u64 = TEXT + COUNT * SECOND + (SECOND_NUMBER + EXPRESSIONS) * BELOW;

pub const OF_OR: u64 = (TWO + EXPRESSIONS) * BELOW;

pub const OF_AND: u64 = (TWO + EXPRESSIONS) * BELOW;

pub const OF_EQ: u64 = (TWO + EXPRESSIONS) * BELOW;

pub const OF_SAME: u64 = (TWO + EXPRESSIONS) * BELOW;

pub const OF_GT: u64 = (TWO + EXPRESSIONS) * BELOW;

pub const OF_GE: u64 = (TWO + EXPRESSIONS) * BELOW;

pub const OF_LT: u64 = (TWO + EXPRESSIONS) * BELOW;

pub const OF_LE: u64 = (TWO + EXPRESSIONS) * BELOW;

pub const OF_ADD: u64 = (TWO + EXPRESSIONS) * BELOW;

pub const OF_SUB: u64 = (TWO + EXPRESSIONS) * BELOW;

pub const OF_MUL: u64 = (TWO + EXPRESSIONS) * BELOW;

pub const OF_DIV: u64 = (TWO + EXPRESSIONS) * BELOW;

pub const OF_IN: u64 = COUNT + (LINE + MORE_BY_FIRST + EXPRESSIONS) * BELOW;

pub const OF_PLUS: u64 = (LINE + EXPRESSIONS) * BELOW;

pub const OF_NEG: u64 = (LINE + EXPRESSIONS) * BELOW;

pub const OF_NOT: u64 = (LINE + EXPRESSIONS) * BELOW;

pub const OF_IF: u64 = (THREE + EXPRESSIONS) * BELOW;

pub const OF_COALESCE: u64 = COUNT + (MORE_BY_FIRST + EXPRESSIONS) * BELOW;

pub const OF_ROW: u64 = CELLS;

pub const OF_ASC: u64 = (LINE + EXPRESSIONS) * BELOW;

pub const OF_DESC: u64 = (LINE + EXPRESSIONS) * BELOW;

pub const OF_AGG: u64 = VARIABLE + TEXT * SECOND + FLAG * THIRD + (LINE + EXPRESSIONS) * BELOW;

pub const OF_AGGALL: u64 = VARIABLE + FLAG * SECOND;

pub const OF_QUERY: u64 = FORM + TEXT * SECOND + TEXT * THIRD + (LINE + PATTERNS) * BELOW;

pub const OF_SET: u64 = COUNT
    + COUNT * SECOND
    + (LINE + POSITIONS) * BELOW
    + (SECOND_NUMBER + VALUE_ROWS) * NEXT;

pub const OF_AT: u64 = INTEGERS;

pub const OF_VALUE_ROW: u64 = VALUES;

pub const OF_LEAF: u64 = VALUE;

pub const OF_REF: u64 = INTEGER;

pub const OF_UN: u64 = TEXT + (LINE + PARTS) * BELOW;

pub const OF_BIN: u64 = TEXT + (TWO + PARTS) * BELOW;

pub const OF_TERN: u64 = TEXT + (THREE + PARTS) * BELOW;

pub const OF_NARY: u64 = TEXT + COUNT * SECOND + (MORE_BY_SECOND + PARTS) * BELOW;
