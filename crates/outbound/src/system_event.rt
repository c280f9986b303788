// System Event (S, 10 bytes): the day begins or ends.
ghost use Rattle.wire.specs.Messages.{system_event};
ghost use Rattle.outbound.specs.Outbound.{system_event_of, system_event_bytes, system_event_values};
ghost use Rattle.outbound.specs.Faithful.{system-event-faithful};

use answers::Answer;
use wire::body::{Body, Written};
use wire::judge::judge;
use wire::messages::Message;
use wire::spelling::{put_letter, put_long, started};

#[derive(Clone, Copy)]
pub struct SystemEvent {
    pub stamp: u64,
    pub event: u8,
}

impl Body for SystemEvent {
    ghost layout = { system_event };

    ghost of_bytes = { system_event_of };

    fn size() -> usize {
        Message::SystemEvent.size()
    }

    fn judged(s: &[u8]) -> Answer {
        judge(s, Message::SystemEvent)
    }

    fn parse(s: &[u8]) -> Self {
        SystemEvent {
            stamp: octets::be64(s, 1),
            event: octets::byte_at(s, 9),
        }
    }
}

impl Written for SystemEvent {
    ghost bytes = { system_event_bytes };

    fn message() -> Message {
        Message::SystemEvent
    }

    fn spell(self) -> [u8; 80] {
        let mut t = started(b'S');
        put_long(&mut t, 1, self.stamp);
        put_letter(&mut t, 9, self.event);
        t
    }

    ghost faithful = { (system_event_values, system-event-faithful) };
}
