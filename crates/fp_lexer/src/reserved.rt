//! The numbers of reserved words that parsers name: their places in the table.

/// How many reserved words there are.
pub const COUNT: u8 = 113;

pub const ACTION: u8 = 0;

pub const ACTIVE: u8 = 1;

pub const ACTIVITY: u8 = 2;

pub const ALWAYS: u8 = 3;

pub const ARRAY: u8 = 4;

pub const ASSERT: u8 = 5;

pub const ASYNC: u8 = 6;

pub const AT: u8 = 7;

pub const BASE: u8 = 8;

pub const BLOCK: u8 = 9;

pub const BOOL: u8 = 10;

pub const CHANGE: u8 = 11;

pub const CHOICE: u8 = 12;

pub const COMMAND: u8 = 13;

pub const COMPONENT: u8 = 14;

pub const CONNECTIONS: u8 = 15;

pub const CONSTANT: u8 = 16;

pub const CONTAINER: u8 = 17;

pub const CPU: u8 = 18;

pub const DEFAULT: u8 = 19;

pub const DIAGNOSTIC: u8 = 20;

pub const DICTIONARY: u8 = 21;

pub const DO: u8 = 22;

pub const DROP: u8 = 23;

pub const ELSE: u8 = 24;

pub const ENTER: u8 = 25;

pub const ENTRY: u8 = 26;

pub const ENUM: u8 = 27;

pub const EVENT: u8 = 28;

pub const EVERY: u8 = 29;

pub const EXIT: u8 = 30;

pub const EXTERNAL: u8 = 31;

pub const F32: u8 = 32;

pub const F64: u8 = 33;

pub const FALSE: u8 = 34;

pub const FATAL: u8 = 35;

pub const FORMAT: u8 = 36;

pub const GET: u8 = 37;

pub const GUARD: u8 = 39;

pub const GUARDED: u8 = 40;

pub const HEALTH: u8 = 41;

pub const HIGH: u8 = 42;

pub const HOOK: u8 = 43;

pub const I16: u8 = 44;

pub const I32: u8 = 45;

pub const I64: u8 = 46;

pub const I8: u8 = 47;

pub const ID: u8 = 48;

pub const IF: u8 = 49;

pub const IMPORT: u8 = 50;

pub const INCLUDE: u8 = 51;

pub const INITIAL: u8 = 52;

pub const INPUT: u8 = 53;

pub const INSTANCE: u8 = 54;

pub const INTERFACE: u8 = 55;

pub const INTERNAL: u8 = 56;

pub const LOCATE: u8 = 57;

pub const LOW: u8 = 58;

pub const MACHINE: u8 = 59;

pub const MATCH: u8 = 60;

pub const MODULE: u8 = 61;

pub const ON: u8 = 63;

pub const OPCODE: u8 = 64;

pub const ORANGE: u8 = 65;

pub const OUTPUT: u8 = 66;

pub const PACKETS: u8 = 68;

pub const PARAM: u8 = 69;

pub const PASSIVE: u8 = 70;

pub const PHASE: u8 = 71;

pub const PORT: u8 = 72;

pub const PRIORITY: u8 = 73;

pub const PRIVATE: u8 = 74;

pub const PRODUCT: u8 = 75;

pub const QUEUE: u8 = 76;

pub const QUEUED: u8 = 77;

pub const RECORD: u8 = 78;

pub const RECV: u8 = 79;

pub const RED: u8 = 80;

pub const REF: u8 = 81;

pub const REG: u8 = 82;

pub const RESP: u8 = 84;

pub const SAVE: u8 = 85;

pub const SERIAL: u8 = 87;

pub const SET: u8 = 88;

pub const SEVERITY: u8 = 89;

pub const SIGNAL: u8 = 90;

pub const SIZE: u8 = 91;

pub const STACK: u8 = 92;

pub const STATE: u8 = 93;

pub const STRING: u8 = 94;

pub const STRUCT: u8 = 95;

pub const SYNC: u8 = 96;

pub const TELEMETRY: u8 = 97;

pub const TEXT: u8 = 98;

pub const THROTTLE: u8 = 99;

pub const TIME: u8 = 100;

pub const TOPOLOGY: u8 = 101;

pub const TRUE: u8 = 102;

pub const TYPE: u8 = 103;

pub const U16: u8 = 104;

pub const U32: u8 = 105;

pub const U64: u8 = 106;

pub const U8: u8 = 107;

pub const UNMATCHED: u8 = 108;

pub const UPDATE: u8 = 109;

pub const WARNING: u8 = 110;

pub const WITH: u8 = 111;

pub const YELLOW: u8 = 112;
