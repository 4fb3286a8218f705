//! The limits of this centre, each in one place: code and definitions cite them here.

/// The slowest speed of a track, in km/h.
pub const SLOWEST: u16 = 5;

/// The fastest speed of a track, in km/h.
pub const FASTEST: u16 = 600;

/// The steepest gradient of a track, uphill or downhill, in per mille.
pub const STEEPEST: i16 = 254;

/// How many steps the profile of a packet may have (N_ITER).
pub const MOST_STEPS: usize = 31;

/// How many metres a track function, a profile or a section may have.
pub const LONGEST_TRACK: u32 = 100_000;

/// How many metres a section, and a speed or a gradient in it, has at least.
pub const SHORTEST_RUN: u32 = 25;

/// How many metres from its balise group an authority may end where the message counts in metres (Q_SCALE 1).
pub const FARTHEST_END: u32 = 32_000;

/// The first end of an authority beyond [`FARTHEST_END`], in metres from its balise group: from there on the message counts
/// in tens of metres (Q_SCALE 2).
pub const FIRST_END_IN_TENS: u32 = 32_010;

/// How many metres from its balise group an authority may end where the message counts in tens of metres.
pub const FARTHEST_END_IN_TENS: u32 = 80_000;

/// How many metres such a message counts as one.
pub const TEN_METRES: u32 = 10;

/// The greatest country or region of a balise group (NID_C).
pub const LAST_COUNTRY: u16 = 1_023;

/// The greatest number of a balise group in its country or region (NID_BG). The next one means an unknown group.
pub const LAST_GROUP: u16 = 16_382;

/// The greatest number of a train.
pub const LAST_TRAIN: u32 = 9_999_999;

/// How many metres past its balise group a train may report its front.
pub const FARTHEST_REPORT: u32 = 100_000;

/// How many metres past its balise group the authority may end that a train keeps when it gives metres back.
pub const FARTHEST_KEPT: u32 = 100_000;

/// By how many metres a report may tell this distance too great or too small (L_DOUBTOVER, L_DOUBTUNDER).
pub const MOST_DOUBT: u16 = 10_000;

/// How many metres a train may be long.
pub const LONGEST_TRAIN: u16 = 4_095;

/// The latest time of a report, in the train's own count (T_TRAIN). The next one comes from no report.
pub const LAST_TIME: u32 = 4_294_967_294;

/// How many bytes the name of a section or a route may have.
pub const LONGEST_NAME: usize = 16;

/// How many sections a track may have.
pub const MOST_SECTIONS: usize = 4_096;

/// How many links a track may have.
pub const MOST_LINKS: usize = 16_384;

/// How many balise groups a track may have.
pub const MOST_GROUPS: usize = 16_384;

/// How many routes a track may have.
pub const MOST_ROUTES: usize = 4_096;

/// How many legs a route may have.
pub const MOST_LEGS: usize = 64;

/// How many legs of a train's line a line of text tells. With names of up to 16 bytes it has fewer than 1,200 bytes.
pub const LEGS_A_LINE: usize = 64;

/// How many trains a scene may have.
pub const MOST_TRAINS: usize = 1_024;

/// How many entries a history may have where nothing else is said.
pub const USUAL_ENTRIES: usize = 100_000;

/// How many entries a history may be given room for, at most.
pub const MOST_ENTRIES: usize = 50_000_000;

/// What a train loses on one metre at most, whatever the level there and the one that it is given.
pub const MOST_PRICE: u32 = 1_000_000;

/// What a profile loses at most over all metres of a track function.
pub const MOST_LOSS: u64 = 100_000_000_000;

/// How many lines a session treats.
pub const MOST_LINES: u32 = 1_000_000;

/// How many bytes a line of a session may have, a carriage return counted.
pub const LONGEST_LINE: usize = 4_096;

/// How many bytes a line of a text with certificates may have, a carriage return counted.
pub const LONGEST_CHECK_LINE: usize = 65_536;

/// How many bytes a track file may have.
pub const LONGEST_FILE: usize = 16_777_216;

// The radio message.

/// The number of the movement authority among the messages (NID_MESSAGE).
pub const MESSAGE_NUMBER: u32 = 3;

/// The number of the level 2 movement authority among the packets (NID_PACKET).
pub const AUTHORITY_PACKET: u32 = 15;

/// The number of the gradient profile among the packets (NID_PACKET).
pub const GRADIENT_PACKET: u32 = 21;

/// The number of the static speed profile among the packets (NID_PACKET).
pub const SPEED_PACKET: u32 = 27;

/// How many bits the message has before its packets.
pub const HEADER_BITS: u32 = 75;

/// How many bits packet 15 has (L_PACKET).
pub const AUTHORITY_BITS: u32 = 66;

/// How many bits packet 21 has beside its steps (L_PACKET).
pub const GRADIENT_BITS: u32 = 54;

/// How many bits packet 21 has for each step.
pub const GRADIENT_STEP_BITS: u32 = 24;

/// How many bits packet 27 has beside its steps (L_PACKET).
pub const SPEED_BITS: u32 = 58;

/// How many bits packet 27 has for each step.
pub const SPEED_STEP_BITS: u32 = 28;

/// The value of T_LOA that means no time-out.
pub const NO_TIME_OUT: u32 = 1_023;

/// In steps of how many km/h packet 27 tells a speed (V_STATIC).
pub const SPEED_STEP: u16 = 5;

/// The greatest number of these steps.
pub const MOST_SPEED_STEPS: u32 = 120;

/// What stands where a profile of speeds ends, in place of a speed (V_STATIC).
pub const SPEED_END_MARK: u32 = 127;

/// What stands where a profile of gradients ends, in place of a gradient (G_A).
pub const GRADIENT_END_MARK: u32 = 255;
