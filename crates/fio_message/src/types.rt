//! The types of messages, which are their first octets (TEES 2009). The type of an answer is that of the command that it
//! answers plus 128.

/// Asks for the flags and the error counts, and clears flags.
pub const STATUS: u8 = 49;

/// Loads the millisecond counter.
pub const LOAD_COUNTER: u8 = 50;

/// Configures inputs.
pub const CONFIGURE_INPUTS: u8 = 51;

/// Asks for the levels of the inputs.
pub const RAW_INPUTS: u8 = 52;

/// Asks for the filtered states of the inputs.
pub const FILTERED_INPUTS: u8 = 53;

/// Asks for a block of transitions.
pub const POLL: u8 = 54;

/// Sets the outputs.
pub const SET_OUTPUTS: u8 = 55;

/// Configures input tracking.
pub const TRACK_INPUTS: u8 = 56;

/// Configures complex outputs.
pub const COMPLEX_OUTPUTS: u8 = 57;

/// Sets the watchdog.
pub const WATCHDOG: u8 = 58;

/// Identifies the controller.
pub const CONTROLLER_ID: u8 = 59;

/// Asks for the module's identification.
pub const IDENTIFY: u8 = 60;

/// An answer's type is its command's plus this.
pub const ANSWER: u8 = 128;

/// The flags and the error counts.
pub const STATUS_ANSWER: u8 = STATUS + ANSWER;

/// The load of the counter has been requested.
pub const LOAD_COUNTER_ANSWER: u8 = LOAD_COUNTER + ANSWER;

/// The inputs have been configured, or not.
pub const CONFIGURE_INPUTS_ANSWER: u8 = CONFIGURE_INPUTS + ANSWER;

/// The levels of the inputs.
pub const RAW_INPUTS_ANSWER: u8 = RAW_INPUTS + ANSWER;

/// The filtered states of the inputs.
pub const FILTERED_INPUTS_ANSWER: u8 = FILTERED_INPUTS + ANSWER;

/// A block of transitions.
pub const BLOCK_ANSWER: u8 = POLL + ANSWER;

/// The outputs have been set.
pub const SET_OUTPUTS_ANSWER: u8 = SET_OUTPUTS + ANSWER;

/// The answer to the configuration of input tracking.
pub const TRACK_INPUTS_ANSWER: u8 = TRACK_INPUTS + ANSWER;

/// The answer to the configuration of complex outputs.
pub const COMPLEX_OUTPUTS_ANSWER: u8 = COMPLEX_OUTPUTS + ANSWER;

/// The watchdog has been set.
pub const WATCHDOG_ANSWER: u8 = WATCHDOG + ANSWER;

/// The answer to the identification of the controller.
pub const CONTROLLER_ID_ANSWER: u8 = CONTROLLER_ID + ANSWER;

/// The module's identification.
pub const IDENTIFY_ANSWER: u8 = IDENTIFY + ANSWER;
