// The entry that has the other end's parameters.
ghost use Rattle.std.specs.Prelude.{◌≡◌};
ghost use Rattle.protocol.specs.Exchange.{heard_params, has_params, matches, matched};

use book::{Book, Entry};
use collecting::kept_book::{entry_of, left_out};
use protocol::{Exchange, Hearing};

// p0 to p4 of the other end, after its identifier. Each by name: a `..` in the pattern would copy a part of an array, which the check does
// not cover.
pub(crate) fn heard_params(h: Hearing) -> [u8; 5]
    ensures { result ≡ heard_params h }
{
    let [_, p0, p1, p2, p3, p4] = h.values;
    [p0, p1, p2, p3, p4]
}

// The entry's five parameters are the values.
pub(crate) fn has_params(e: Entry, values: [u8; 5]) -> bool
    ensures { result ≡ has_params e values }
{
    e.params() == values
}

// On a version an entry is matched by its parameters, unless it is left out.
fn matches(version: u8, e: Entry, values: [u8; 5]) -> bool
    ensures { result ≡ matches version e values }
{
    !left_out(version, e) & has_params(e, values)
}

// The place of the entry that has the other end's parameters, on the version settled.
fn matched(b: Book, version: u8, h: Hearing) -> Option<u8>
    ensures { result ≡ matched b version h }
{
    let values = heard_params(h);
    for i in (0..b.n).rev() {
        if matches(version, entry_of(b, i), values) {
            return Some(i);
        }
    }
    None
}

// A book, the exchange once the byte has acted, and the entry matched then: the entries are gone over once, for the values sent and for
// the fate.
#[derive(Clone, Copy)]
pub(crate) struct Acted {
    pub(crate) book: Book,
    pub(crate) exchange: Exchange,
    pub(crate) entry: Option<u8>,
    ghost entry_matched: { entry ≡ matched book exchange.version exchange.hearing },
}

impl Acted {
    pub(crate) fn new(book: Book, exchange: Exchange) -> Self
        ensures of_book { result.book ≡ book }
        ensures of_exchange { result.exchange ≡ exchange }
    {
        let entry = matched(book, exchange.version, exchange.hearing);
        Acted {
            book,
            exchange,
            entry,
        }
    }
}
