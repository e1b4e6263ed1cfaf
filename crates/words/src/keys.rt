// The words of the table as keys: the bytes of each as one number, named by the word.
pub const T: u64 = 0x74;

pub const COLS: u64 = 0x636f6c73;

pub const BGP: u64 = 0x626770;

pub const PATH: u64 = 0x70617468;

pub const JOIN: u64 = 0x6a6f696e;

pub const UNION: u64 = 0x756e696f6e;

pub const MINUS: u64 = 0x6d696e7573;

pub const LEFTJOIN: u64 = 0x6c6566746a6f696e;

pub const FILTER: u64 = 0x66696c746572;

pub const GRAPH: u64 = 0x6772617068;

pub const EXTEND: u64 = 0x657874656e64;

pub const VALUES: u64 = 0x76616c756573;

pub const ORDERBY: u64 = 0x6f726465726279;

pub const PROJECT: u64 = 0x70726f6a656374;

pub const DISTINCT: u64 = 0x64697374696e6374;

pub const REDUCED: u64 = 0x72656475636564;

pub const SLICE: u64 = 0x736c696365;

pub const GROUP: u64 = 0x67726f7570;

pub const SERVICE: u64 = 0x73657276696365;

pub const TERM: u64 = 0x7465726d;

pub const BOUND: u64 = 0x626f756e64;

pub const EXISTS: u64 = 0x657869737473;

pub const CALL: u64 = 0x63616c6c;

pub const OR: u64 = 0x6f72;

pub const AND: u64 = 0x616e64;

pub const EQ: u64 = 0x6571;

pub const SAME: u64 = 0x73616d65;

pub const GT: u64 = 0x6774;

pub const GE: u64 = 0x6765;

pub const LT: u64 = 0x6c74;

pub const LE: u64 = 0x6c65;

pub const ADD: u64 = 0x616464;

pub const SUB: u64 = 0x737562;

pub const MUL: u64 = 0x6d756c;

pub const DIV: u64 = 0x646976;

pub const IN: u64 = 0x696e;

pub const PLUS: u64 = 0x706c7573;

pub const NEG: u64 = 0x6e6567;

pub const NOT: u64 = 0x6e6f74;

pub const IF: u64 = 0x6966;

pub const COALESCE: u64 = 0x636f616c65736365;

pub const ROW: u64 = 0x726f77;

pub const ASC: u64 = 0x617363;

pub const DESC: u64 = 0x64657363;

pub const AGG: u64 = 0x616767;

pub const AGGALL: u64 = 0x616767616c6c;

pub const QUERY: u64 = 0x7175657279;

pub const SET: u64 = 0x736574;

pub const AT: u64 = 0x6174;

pub const LEAF: u64 = 0x6c656166;

pub const REF: u64 = 0x726566;

pub const UN: u64 = 0x756e;

pub const BIN: u64 = 0x62696e;

pub const TERN: u64 = 0x7465726e;

pub const NARY: u64 = 0x6e617279;
