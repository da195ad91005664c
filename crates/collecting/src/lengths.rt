// How many bytes are awaited and sent.
ghost use Rattle.std.specs.Prelude.{◌≡◌};
ghost use Rattle.protocol.specs.Lengths.{parameter_run, parameter_lead, run_length, parameter_bytes, all_parameter_bytes};

use book::Book;

// The run of Sgvi for the identifier; so many at least are sent by the originator.
pub const IDENTIFIER_RUN: u8 = 16;

// Three DL DH pairs.
pub const GROUP_LENGTH: u8 = 6;

#[tactic(auto, unfolding(protocol::specs::Lengths::parameter_run))]
fn parameter_run(b: Book) -> u8
    ensures { result ≡ parameter_run b }
{
    4
}

#[tactic(auto, unfolding(protocol::specs::Lengths::parameter_lead))]
pub fn parameter_lead(b: Book) -> u8
    ensures { result ≡ parameter_lead b }
{
    32
}

// The run for an item: item 0 is the identifier, item k + 1 is parameter k.
#[tactic(auto, unfolding(protocol::specs::Lengths::identifier_run))]
pub fn run_length(b: Book, item: u8) -> u8
    ensures { result ≡ run_length b item }
{
    if item == 0 {
        IDENTIFIER_RUN
    } else {
        parameter_run(b)
    }
}

// One parameter: its lead and its group.
pub fn parameter_bytes(b: Book) -> u16
    ensures { result ≡ parameter_bytes b }
{
    u16::from(parameter_lead(b)) + u16::from(GROUP_LENGTH)
}

// All five parameters.
#[tactic(auto, unfolding(protocol::specs::Lengths::parameter_lead))]
pub fn all_parameter_bytes(b: Book) -> u16
    ensures { result ≡ all_parameter_bytes b }
{
    5 * parameter_bytes(b)
}
