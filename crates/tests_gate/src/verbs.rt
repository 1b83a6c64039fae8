//! The words of lines, each by its number. `tools/cases/calls.py` reads this list, so that cases have
//! words. Lines have numbers, since a match of a text takes five times as long to prove.

pub const ACCEPT: u64 = 1;

pub const ACCEPTED: u64 = 2;

pub const ADD: u64 = 3;

pub const ALL_LOST: u64 = 4;

pub const AMQP_091: u64 = 5;

pub const AMQP_10: u64 = 6;

pub const ARRAY: u64 = 7;

pub const ARRIVED: u64 = 8;

pub const ASK: u64 = 9;

pub const ASKED: u64 = 10;

pub const ASSEMBLE: u64 = 11;

pub const ATTACHED: u64 = 12;

pub const BAD: u64 = 13;

pub const BEGIN: u64 = 14;

pub const BODY: u64 = 15;

pub const BUILT: u64 = 16;

pub const CANCEL: u64 = 17;

pub const CAPTURE: u64 = 18;

pub const CHAR: u64 = 19;

pub const CLEAR: u64 = 20;

pub const CLOSE: u64 = 21;

pub const CLOSED: u64 = 22;

pub const CLOSES: u64 = 23;

pub const CLOSING: u64 = 24;

pub const CODES: u64 = 25;

pub const CONFIRM: u64 = 26;

pub const CONFIRMS: u64 = 27;

pub const CONSUMER: u64 = 28;

pub const CONTENT: u64 = 29;

pub const CREDIT: u64 = 30;

pub const DELIVER: u64 = 31;

pub const DELIVERIES: u64 = 32;

pub const DESCRIBED: u64 = 33;

pub const DISCARD: u64 = 34;

pub const DRAIN: u64 = 35;

pub const ECHO: u64 = 36;

pub const EMPTY: u64 = 37;

pub const END: u64 = 38;

pub const ENDED: u64 = 39;

pub const END_FLUSH: u64 = 40;

pub const END_LEFT: u64 = 41;

pub const END_NOTE: u64 = 42;

pub const END_OVER: u64 = 43;

pub const END_READ: u64 = 44;

pub const END_READY: u64 = 45;

pub const END_STREAM: u64 = 46;

pub const END_WRITE: u64 = 47;

pub const FAULT: u64 = 48;

pub const FLOW: u64 = 49;

pub const FRAME: u64 = 50;

pub const FRONT: u64 = 51;

pub const GATE: u64 = 52;

pub const GATEWAY: u64 = 53;

pub const GETTER: u64 = 54;

pub const GLOBAL: u64 = 55;

pub const GRANT: u64 = 56;

pub const GRANTED: u64 = 57;

pub const HANDLES: u64 = 58;

pub const HEADER: u64 = 59;

pub const HEADERS: u64 = 60;

pub const IN: u64 = 61;

pub const IS_OPEN: u64 = 62;

pub const LAST: u64 = 63;

pub const LIFE: u64 = 64;

pub const LIST: u64 = 65;

pub const LIST_091: u64 = 66;

pub const LIST_10: u64 = 67;

pub const LIST_OF_TWO: u64 = 68;

pub const LOG: u64 = 69;

pub const LOSE: u64 = 70;

pub const LOST: u64 = 71;

pub const MAP: u64 = 72;

pub const MEMORY_SINK: u64 = 73;

pub const MEMORY_SOURCE: u64 = 74;

pub const MESSAGE: u64 = 75;

pub const NAMES: u64 = 76;

pub const NEEDED: u64 = 77;

pub const NEW: u64 = 78;

pub const NEXT: u64 = 79;

pub const NOT_FOUND: u64 = 80;

pub const OK: u64 = 81;

pub const OPENED: u64 = 82;

pub const OUT: u64 = 83;

pub const PACE: u64 = 84;

pub const PAIRS: u64 = 85;

pub const PAIRS_ACCEPT: u64 = 86;

pub const PAIRS_BACK: u64 = 87;

pub const PAIRS_CLOSE: u64 = 88;

pub const PAIRS_FIND: u64 = 89;

pub const PAIRS_LINK: u64 = 90;

pub const PERF: u64 = 91;

pub const PIECE: u64 = 92;

pub const PLAY: u64 = 93;

pub const PREFETCH: u64 = 94;

pub const PROPERTIES: u64 = 95;

pub const PROTOCOL: u64 = 96;

pub const PUBLISHES: u64 = 97;

pub const PUSH: u64 = 98;

pub const PUT_FRAME: u64 = 99;

pub const QUOTA: u64 = 100;

pub const READER: u64 = 101;

pub const READ_CONTENT: u64 = 102;

pub const READ_METHOD: u64 = 103;

pub const READ_TABLE: u64 = 104;

pub const RECEIVER: u64 = 105;

pub const RECOUNTED: u64 = 106;

pub const REFUSED: u64 = 107;

pub const REJECT: u64 = 108;

pub const RELEASE: u64 = 109;

pub const RELEASED: u64 = 110;

pub const REMOVE: u64 = 111;

pub const REPORT: u64 = 112;

pub const RETURN: u64 = 113;

pub const ROOM: u64 = 114;

pub const ROOMS: u64 = 115;

pub const RUN: u64 = 116;

pub const SCAN_FRAME: u64 = 117;

pub const SCAN_FRAME_PARTS: u64 = 118;

pub const SCAN_HEADER: u64 = 119;

pub const SCAN_HEADER_PARTS: u64 = 120;

pub const SCRIPT: u64 = 121;

pub const SEND: u64 = 122;

pub const SENDER: u64 = 123;

pub const SET: u64 = 124;

pub const SETTLE: u64 = 125;

pub const SETTLED: u64 = 126;

pub const START: u64 = 127;

pub const STATE: u64 = 128;

pub const STATUSES: u64 = 129;

pub const STRING: u64 = 130;

pub const SWAP: u64 = 131;

pub const SYMBOL: u64 = 132;

pub const TAKE: u64 = 133;

pub const TELL: u64 = 134;

pub const TO091: u64 = 135;

pub const TO10: u64 = 136;

pub const TOLD: u64 = 137;

pub const TRANSFER: u64 = 138;

pub const TRIES: u64 = 146;

pub const TRUNCATE: u64 = 139;

pub const VALUE: u64 = 140;

pub const VALUES: u64 = 141;

pub const WAIT: u64 = 142;

pub const WORD: u64 = 143;

pub const WRITER: u64 = 144;

pub const WRITTEN: u64 = 145;
