// The write message: START, the address, the lent bytes, STOP.
ghost use Rattle.std.specs.Prelude.{◌≡◌, map, ◌≤◌};
ghost use Rattle.refusals.specs.Reasons.{code_in};
ghost use Rattle.refusals.specs.Refusals.{code_of};
ghost use Rattle.bus.specs.declared.SignalEvent.TheVariants.{Put};
ghost use Rattle.message.specs.Message.{message_done};
ghost use Rattle.message.specs.Write.{write_events, write_refusals, write_reply};
ghost use Rattle.message.specs.Sent.{sent_by};

use crate::sent::Sent;
use bus::{Bus, Reply};
use protocol::signals::is_open;
use refusals::{Reason, judge};

fn write_check(bus: Bus, address: u64) -> Result<(), Reason>
    ensures { code_in result ≡ code_of (write_refusals bus address) }
{
    judge(&[
        (Reason::Malformed, !bus::is_ok(bus)),
        (Reason::OutOfTurn, is_open(bus.phase)),
        (Reason::TooLarge, 127 < address),
    ])
}

impl Sent {
    // Each lent byte in turn.
    #[tactic(auto, using(crate::proofs::laws::Sent::sent_none, crate::proofs::laws::Sent::puts_more))]
    fn put_all(self, bytes: &[u8]) -> Sent
        requires { self.acks ≤ 1 }
        ensures { result ≡ sent_by self (map Put bytes.now) }
    {
        let mut sent = self;
        for &byte in bytes {
            sent = sent.put(byte as u64);
        }
        sent
    }
}

#[tactic(auto, using(crate::proofs::laws::Sent::sent_append, crate::proofs::laws::Sent::ended_is))]
fn write_done(bus: Bus, address: u64, bytes: &[u8]) -> Reply
    requires { address ≤ 127 }
    ensures { result ≡ message_done bus (write_events address bytes.now) }
{
    Sent::on(bus).start().put(2 * address).put_all(bytes).stop()
}

#[tactic(auto, unfolding(crate::specs::Write::write_reply))]
pub fn write_message(bus: Bus, address: u64, bytes: &[u8]) -> Reply
    ensures { result ≡ write_reply bus address bytes.now }
{
    match write_check(bus, address) {
        Ok(()) => write_done(bus, address, bytes),
        Err(reason) => bus::refused_for(bus, reason),
    }
}
