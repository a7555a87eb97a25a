// How much a table holds, and the room that its arrays have for it.

pub const MOST_SITES: u32 = 16;

pub const MOST_AGENTS: u32 = 64;

pub const MOST_MESSAGES: u32 = 512;

pub const AGENT_ROOM: usize = MOST_AGENTS as usize;

pub const MESSAGE_ROOM: usize = MOST_MESSAGES as usize;
