// What a slot is given besides the received byte, put together.
ghost use Rattle.std.specs.Prelude.{◌≡◌};
ghost use Rattle.protocol.specs.Opened.{drive_with};
ghost use Rattle.protocol.specs.Joined.{idle};

use crate::line::idle_leads;
use channel::byte::Leads;
use protocol::Drive;

// A function and no literal: public, with a promise and edits of its own.
pub fn drive_with(leads: Leads, flag: bool, offer: Option<u8>) -> Drive
    ensures { result ≡ drive_with leads flag offer }
{
    Drive { leads, flag, offer }
}

// Leads 0100, no break, no unit offered.
pub fn idle() -> Drive
    ensures { result ≡ idle }
{
    drive_with(idle_leads(), false, None)
}
