// The eleven buttons, each by its weight in a mask: button k is bit k, of weight 2 to the k.
pub const ANNOUNCEMENT: u16 = 1;

pub const PREANNOUNCEMENT: u16 = 2;

pub const CAUTION: u16 = 4;

pub const CONDITIONAL_CLEAR: u16 = 8;

pub const BEFORE_STOP: u16 = 16;

pub const CROSSING: u16 = 32;

pub const LIMIT: u16 = 64;

pub const OVERRIDE: u16 = 128;

pub const INCREASE: u16 = 256;

pub const HIDE: u16 = 512;

pub const REARM: u16 = 1024;
