// What the functions of one event read.
ghost use Rattle.std.specs.Prelude.{◌<◌};

use crate::{Moment, Rules};

// The log's bytes and where its events stand, the formula's bytes and the event's table of steps, what stays from event to
// event, and the event, one of at most 1024.
#[derive(Clone, Copy)]
pub struct Scene<'a> {
    pub log: &'a [u8],
    pub places: &'a [usize],
    pub formula: &'a [u8],
    pub table: &'a [usize],
    pub rules: Rules,
    pub moment: Moment,
    ghost numbered: { moment.number < 1024 },
}
