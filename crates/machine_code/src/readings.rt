// The fields of an event, or the last values known of them: which are present, and their values.
ghost use Rattle.std.specs.Prelude.{◌≡◌};
ghost use Rattle.event_log.specs.Arrays.{in_event, in_latest};
ghost use Rattle.event_log.specs.Event.{together};
ghost use Rattle.event_log.specs.Log.{Values, present, field};

use event_log::{Event, Latest};
use std::marker::Model;

// The fields' values, and which of them are present; contracts see the two together.
#[derive(Drop)]
pub struct Fields<'a> {
    values: &'a [u32],
    present: &'a [bool],
}

impl<'a> Model for Fields<'a> {
    ghost Value = { Values };

    ghost view = { λ x. together x.present.now x.values.now };
}

impl<'a> From<&'a Event> for Fields<'a> {
    ghost from_gives = { λ e x. x ≡ in_event e.now };

    fn from(event: &'a Event) -> Fields<'a> {
        Fields::new(&event.values, &event.present)
    }
}

impl<'a> From<&'a Latest> for Fields<'a> {
    ghost from_gives = { λ e x. x ≡ in_latest e.now };

    fn from(latest: &'a Latest) -> Fields<'a> {
        Fields::new(&latest.values, &latest.present)
    }
}

impl<'a> Fields<'a> {
    // The fields with these values, where they are present.
    pub fn new(values: &'a [u32], present: &'a [bool]) -> Fields<'a>
        ensures { result ≡ together present.now values.now }
    {
        Fields { values, present }
    }

    // Whether a field is present.
    pub fn has(&self, n: u32) -> bool
        ensures { result ≡ present self.now n }
    {
        base::get_or(self.present, n as usize, false)
    }

    // The value of a field, 0 where it is absent.
    pub fn reading(&self, n: u32) -> u32
        ensures { result ≡ field self.now n }
    {
        if self.has(n) {
            base::get_or(self.values, n as usize, 0)
        } else {
            0
        }
    }
}
