// A raw outbound stream, one line a message.
use crate::line::{
    end_line, say_firm, say_head, say_letter, say_number, say_price, say_refused, say_stamp,
    say_stock, say_token,
};
use outbound::accepted::Accepted;
use outbound::aiq_cancelled::AiqCancelled;
use outbound::broken_trade::BrokenTrade;
use outbound::cancel_pending::CancelPending;
use outbound::cancel_reject::CancelReject;
use outbound::canceled::Canceled;
use outbound::executed::Executed;
use outbound::modified::Modified;
use outbound::priority_update::PriorityUpdate;
use outbound::rejected::Rejected;
use outbound::replaced::Replaced;
use outbound::stated::Stated;
use outbound::system_event::SystemEvent;
use std::io;
use std::io::Stdout;
use wire::body::{Body, read};

// A message that has a line: its name, and its fields in words.
trait Shown: Body {
    fn name() -> &'static [u8];

    fn say(self, out: Stdout);
}

// By its fields where it is legal, and else by its answer.
fn show<M: Shown>(out: Stdout, s: &[u8]) -> io::Result<()> {
    match read::<M>(s).legal() {
        Ok(m) => {
            m.say(out);
            end_line(out)
        }
        Err(refusal) => say_refused(out, M::name(), refusal),
    }
}

// By the type. A feed hands out messages of these types alone.
pub(crate) fn show_message(out: Stdout, s: &[u8]) -> io::Result<()> {
    match s {
        [b'S', ..] => show::<SystemEvent>(out, s),
        [b'A', ..] => show::<Accepted>(out, s),
        [b'U', ..] => show::<Replaced>(out, s),
        [b'C', ..] => show::<Canceled>(out, s),
        [b'D', ..] => show::<AiqCancelled>(out, s),
        [b'E', ..] => show::<Executed>(out, s),
        [b'B', ..] => show::<BrokenTrade>(out, s),
        [b'J', ..] => show::<Rejected>(out, s),
        [b'P', ..] => show::<CancelPending>(out, s),
        [b'I', ..] => show::<CancelReject>(out, s),
        [b'T', ..] => show::<PriorityUpdate>(out, s),
        [b'M', ..] => show::<Modified>(out, s),
        _ => Ok(()),
    }
}

impl Shown for SystemEvent {
    fn name() -> &'static [u8] {
        b"System Event"
    }

    fn say(self, out: Stdout) {
        say_stamp(out, b"System Event ", self.stamp);
        say_letter(out, b" event ", self.event);
    }
}

impl Shown for Accepted {
    fn name() -> &'static [u8] {
        b"Accepted"
    }

    fn say(self, out: Stdout) {
        say_head(out, b"Accepted ", self.stamp, self.token);
        say_order(out, self.order);
        say_letter(out, b" weight ", self.weight);
    }
}

impl Shown for Replaced {
    fn name() -> &'static [u8] {
        b"Replaced"
    }

    fn say(self, out: Stdout) {
        say_head(out, b"Replaced ", self.stamp, self.token);
        say_order(out, self.order);
        say_token(out, b" previous ", self.previous);
        say_letter(out, b" weight ", self.weight);
    }
}

impl Shown for Canceled {
    fn name() -> &'static [u8] {
        b"Canceled"
    }

    fn say(self, out: Stdout) {
        say_head(out, b"Canceled ", self.stamp, self.token);
        say_number(out, b" decrement ", self.decrement.0 as u64);
        say_letter(out, b" reason ", self.reason);
    }
}

impl Shown for AiqCancelled {
    fn name() -> &'static [u8] {
        b"AIQ Cancelled"
    }

    fn say(self, out: Stdout) {
        say_head(out, b"AIQ Cancelled ", self.stamp, self.token);
        say_number(out, b" decrement ", self.decrement.0 as u64);
        say_letter(out, b" reason ", self.reason);
        say_number(out, b" prevented ", self.prevented.0 as u64);
        say_price(out, self.price);
        say_letter(out, b" flag ", self.flag);
    }
}

impl Shown for Executed {
    fn name() -> &'static [u8] {
        b"Executed"
    }

    fn say(self, out: Stdout) {
        say_head(out, b"Executed ", self.stamp, self.token);
        say_number(out, b" shares ", self.shares.0 as u64);
        say_price(out, self.price);
        say_letter(out, b" flag ", self.flag);
        say_number(out, b" match number ", self.match_number);
    }
}

impl Shown for BrokenTrade {
    fn name() -> &'static [u8] {
        b"Broken Trade"
    }

    fn say(self, out: Stdout) {
        say_head(out, b"Broken Trade ", self.stamp, self.token);
        say_number(out, b" match number ", self.match_number);
        say_letter(out, b" reason ", self.reason);
    }
}

impl Shown for Rejected {
    fn name() -> &'static [u8] {
        b"Rejected"
    }

    fn say(self, out: Stdout) {
        say_head(out, b"Rejected ", self.stamp, self.token);
        say_letter(out, b" reason ", self.reason);
    }
}

impl Shown for CancelPending {
    fn name() -> &'static [u8] {
        b"Cancel Pending"
    }

    fn say(self, out: Stdout) {
        say_head(out, b"Cancel Pending ", self.stamp, self.token);
    }
}

impl Shown for CancelReject {
    fn name() -> &'static [u8] {
        b"Cancel Reject"
    }

    fn say(self, out: Stdout) {
        say_head(out, b"Cancel Reject ", self.stamp, self.token);
    }
}

impl Shown for PriorityUpdate {
    fn name() -> &'static [u8] {
        b"Priority Update"
    }

    fn say(self, out: Stdout) {
        say_head(out, b"Priority Update ", self.stamp, self.token);
        say_price(out, self.price);
        say_letter(out, b" display ", self.display);
        say_number(out, b" reference ", self.reference);
    }
}

impl Shown for Modified {
    fn name() -> &'static [u8] {
        b"Modified"
    }

    fn say(self, out: Stdout) {
        say_head(out, b"Modified ", self.stamp, self.token);
        say_letter(out, b" side ", self.side);
        say_number(out, b" shares ", self.shares.0 as u64);
    }
}

// What Accepted and Replaced state of an order, in the order of their bytes.
fn say_order(out: Stdout, order: Stated) {
    say_letter(out, b" side ", order.side);
    say_number(out, b" shares ", order.shares.0 as u64);
    say_stock(out, order.stock);
    say_price(out, order.price);
    say_number(out, b" time in force ", order.time as u64);
    say_firm(out, order.firm);
    say_letter(out, b" display ", order.display);
    say_number(out, b" reference ", order.reference);
    say_letter(out, b" capacity ", order.capacity);
    say_letter(out, b" sweep ", order.sweep);
    say_number(out, b" minimum ", order.minimum.0 as u64);
    say_letter(out, b" cross ", order.cross);
    say_letter(out, b" state ", order.state);
}
