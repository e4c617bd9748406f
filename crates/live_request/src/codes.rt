//! The numbers that stand for names where Rattle and C meet. `clients/c/taskenv.h` has each under the same name, with `LIVE_`
//! before it (`NO_TASK` is its `LIVE_NONE`).

// ---- the calls

pub const POST: u32 = 1;

pub const MAIN: u32 = 2;

pub const TICK: u32 = 3;

pub const TAKE: u32 = 4;

pub const END: u32 = 5;

pub const ENTER: u32 = 6;

pub const LEAVE: u32 = 7;

pub const POLICY: u32 = 8;

pub const REPRIO: u32 = 9;

pub const FENCE: u32 = 10;

pub const UNFENCE: u32 = 11;

pub const VOTE: u32 = 12;

pub const RANK: u32 = 13;

pub const CLOSE: u32 = 14;

pub const MAIN_TAKE: u32 = 15;

pub const MAIN_END: u32 = 16;

pub const JOB_POST: u32 = 17;

pub const JOB_TAKE: u32 = 18;

pub const JOB_STEP: u32 = 19;

pub const JOB_CANCEL: u32 = 20;

pub const CANCELLED: u32 = 21;

pub const JOINED: u32 = 22;

pub const IDLE: u32 = 23;

pub const SHUTDOWN: u32 = 24;

pub const DONE: u32 = 25;

// ---- the kinds of entries, in the order of a log's formats

pub const DID_POST: u32 = 1;

pub const DID_MAIN: u32 = 2;

pub const DID_TICK: u32 = 3;

pub const DID_TAKE: u32 = 4;

pub const DID_END: u32 = 5;

pub const DID_ENTER: u32 = 6;

pub const DID_LEAVE: u32 = 7;

pub const DID_POLICY: u32 = 8;

pub const DID_REPRIO: u32 = 9;

pub const DID_FENCE: u32 = 10;

pub const DID_UNFENCE: u32 = 11;

pub const DID_VOTE: u32 = 12;

pub const DID_RANK: u32 = 13;

pub const DID_CLOSE: u32 = 14;

pub const DID_MAIN_TAKE: u32 = 15;

pub const DID_MAIN_END: u32 = 16;

pub const DID_MAIN_NONE: u32 = 17;

pub const DID_JOB_POST: u32 = 18;

pub const DID_JOB_TAKE: u32 = 19;

pub const DID_JOB_STEP: u32 = 20;

pub const DID_JOB_CANCEL: u32 = 21;

pub const DID_CANCELLED: u32 = 22;

pub const DID_JOINED: u32 = 23;

pub const DID_IDLE: u32 = 24;

pub const DID_SHUTDOWN: u32 = 25;

pub const DID_DONE: u32 = 26;

// ---- what came of a request

pub const MADE: u32 = 0;

pub const MISUSE: u32 = 1;

pub const FULL: u32 = 2;

pub const NOTHING: u32 = 3;

pub const OVER: u32 = 4;

pub const NOT_YET: u32 = 5;

pub const BLOCKED: u32 = 6;

pub const RESTS: u32 = 7;

pub const HAS_COME: u32 = 8;

// ---- whom to wake

pub const NOBODY: u32 = 0;

pub const ONE: u32 = 1;

pub const EVERYONE: u32 = 2;

// ---- what came of a plan

pub const OPENED: u32 = 0;

pub const OUT_OF_MEMORY: u32 = 1;

pub const NO_PLAN: u32 = 2;

pub const HAS_ACTIONS: u32 = 3;

pub const GUEST_RUNNER: u32 = 4;

// ---- scopes

pub const MAY_BLOCK: u32 = 0;

pub const WILL_BLOCK: u32 = 1;

// ---- policies

pub const ALL: u32 = 0;

pub const FOREGROUND: u32 = 1;

pub const NO_WORK: u32 = 2;

// ---- priorities

pub const BEST_EFFORT: u32 = 0;

pub const USER_VISIBLE: u32 = 1;

pub const USER_BLOCKING: u32 = 2;

// ---- fences

pub const NOW: u32 = 0;

pub const START: u32 = 1;

// ---- a job's replies

pub const REFUSED: u32 = 0;

pub const FINISHED: u32 = 1;

pub const JOB_CANCELLED: u32 = 2;

pub const STOPPED: u32 = 3;

/// No task, where a request or an answer could name one.
pub const NO_TASK: u32 = 0xffff_ffff;
