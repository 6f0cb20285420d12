//! What a text may have at most.

pub const NODES_LIMIT: usize = 64;

pub const EDGES_LIMIT: usize = 256;

/// The lines of an author, or the links of a broker.
pub const LINKS_LIMIT: usize = 64;

/// The parameters of a packet.
pub const PARAMS_LIMIT: usize = 64;

pub const PACKETS_LIMIT: usize = 1024;

pub const EVENTS_LIMIT: usize = 1_000_000;

/// The filters of a link.
pub const FILTERS_LIMIT: usize = 16;

/// The bytes of a filter's text.
pub const FILTER_LIMIT: usize = 1024;

/// The bytes of an identifier, or of an end's name.
pub const NAME_LIMIT: usize = 512;

/// The bytes of a line without its line feed.
pub const LINE_LIMIT: usize = 2048;

/// The bytes of a scenario's or configuration's text.
pub const TEXT_LIMIT: usize = 33_554_432;
