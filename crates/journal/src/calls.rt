//! A call with all that a host hands over, and what it tells.
//! No `impl Model` for either: an enum cannot have one.
use command::request::Port;
use drive::axis::AXES;
use drive::health::Health;
use model::refusal::Refusal;
use model::row::Row;

/// Sheets, blocks, texts and readings may have any size and content.
#[derive(Drop)]
pub enum Call {
    Set(Vec<u8>),
    Arm(u16),
    Command {
        port: Port,
        text: Vec<u8>,
        sheet: Vec<Row>,
        answer: Vec<u8>,
    },
    Sample {
        word: u16,
        sheet: Vec<Row>,
    },
    Step {
        readings: Vec<i64>,
        health: Health,
        sheet: Vec<Row>,
    },
    Park,
}

#[derive(Drop)]
pub enum Outcome {
    /// The controller's state does not take the call.
    Untaken,
    Refused(Refusal),
    /// A setting or an arming was taken.
    Done,
    /// The rows, and the answer.
    Told { rows: Vec<Row>, answer: Vec<u8> },
    /// How many entries of each axis were dropped.
    Dropped([usize; AXES]),
}
