// The names of calls and registers: 1, then the characters' codes, two hexadecimal digits each.
pub const NONE: u64 = 0x1;

pub const MAKE: u64 = 0x1_6d61_6b65;

pub const PUT: u64 = 0x170_7574;

pub const SET: u64 = 0x173_6574;

pub const CA: u64 = 0x1_6361;

pub const STEP: u64 = 0x1_7374_6570;

pub const DUMP: u64 = 0x1_6475_6d70;

pub const SHOW: u64 = 0x1_7368_6f77;

pub const LIST: u64 = 0x1_6c69_7374;

pub const PROM: u64 = 0x1_7072_6f6d;

pub const RESET: u64 = 0x172_6573_6574;

pub const POWER: u64 = 0x170_6f77_6572;

pub const SWEEP: u64 = 0x173_7765_6570;

pub const GA: u64 = 0x1_6761;

pub const GB: u64 = 0x1_6762;

pub const GC: u64 = 0x1_6763;

pub const TP: u64 = 0x1_7470;

pub const PP: u64 = 0x1_7070;

pub const BC: u64 = 0x1_6263;

pub const IX: u64 = 0x1_6978;

pub const CC: u64 = 0x1_6363;

pub const FIELDS: u64 = 0x1_6669_656c_6473;

pub const MC: u64 = 0x1_6d63;

pub const PSW: u64 = 0x170_7377;

pub const GA_TAG: u64 = 0x1_6761_2e74;

pub const GB_TAG: u64 = 0x1_6762_2e74;

pub const GC_TAG: u64 = 0x1_6763_2e74;

pub const TP_TAG: u64 = 0x1_7470_2e74;

pub const ARM: u64 = 0x161_726d;

pub const MODE: u64 = 0x1_6d6f_6465;

pub const HELD: u64 = 0x1_6865_6c64;

pub const CP: u64 = 0x1_6370;

pub const LAST: u64 = 0x1_6c61_7374;

pub const UP: u64 = 0x1_7570;

pub const SYSBUS: u64 = 0x1_7379_7362_7573;

pub const SOC: u64 = 0x173_6f63;

pub const GRANT: u64 = 0x167_7261_6e74;
