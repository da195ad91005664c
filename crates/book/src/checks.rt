// The checks of a book's values and of its entries, which reading and the check of a kept book share.
ghost use Rattle.std.specs.Prelude.{◌≡◌, ◌<◌, ◌≤◌, [], length};
ghost use Rattle.book.specs.Book.{most_entries, same_params};
ghost use Rattle.book.specs.Refusals.{is_mask, wrong_count, values_fault, is_form, is_width, is_barred, seen_in, entry_fault, each_fault};
ghost use Rattle.book.specs.Kept.{all_none};

use super::bytes::{COUNT_AT, FORM_IN, LIMIT_AT, MASK_AT, ROLE_AT, WIDTH_IN, entry_start, fault};
use super::{ANSWERING, Book, Entry, Fault, MOST_ENTRIES, NO_ENTRY, ORIGINATING, Refusal};

const LEAST_LIMIT: u16 = 425;

fn is_mask(mask: u8) -> bool
    ensures { result ≡ is_mask mask }
{
    matches!(mask, 1..=3)
}

// n is 0, above 8, or not 1 when originating.
fn wrong_count(role: u8, n: u8) -> bool
    ensures { result ≡ wrong_count role n }
{
    n == 0 || usize::from(n) > MOST_ENTRIES || (role == ORIGINATING && n != 1)
}

// Refusals 4 to 7.
#[tactic(auto, unfolding(crate::specs::Refusals::values_fault))]
pub(crate) fn values_fault(b: Book) -> Result<(), Fault>
    ensures { result ≡ values_fault b }
{
    if ANSWERING < b.role {
        return Err(fault(Refusal::Role, ROLE_AT));
    }
    if !is_mask(b.mask) {
        return Err(fault(Refusal::Mask, MASK_AT));
    }
    if b.limit < LEAST_LIMIT {
        return Err(fault(Refusal::Limit, LIMIT_AT));
    }
    if wrong_count(b.role, b.n) {
        return Err(fault(Refusal::Count, COUNT_AT));
    }
    Ok(())
}

fn is_form(form: u8) -> bool
    ensures { result ≡ is_form form }
{
    matches!(form, 0 | 6 | 7 | 8)
}

// w is 5 to 8 in form 0, and 0 in every other.
fn is_width(form: u8, w: u8) -> bool
    ensures { result ≡ is_width form w }
{
    if form == 0 {
        matches!(w, 5..=8)
    } else {
        w == 0
    }
}

// Form 8 with mask 1.
fn is_barred(mask: u8, form: u8) -> bool
    ensures { result ≡ is_barred mask form }
{
    form == 8 && mask == 1
}

fn same_params(a: Entry, b: Entry) -> bool
    ensures { result ≡ same_params a b }
{
    a.params() == b.params()
}

// Some earlier entry has e's five parameters.
#[tactic(auto, unfolding(crate::specs::Refusals::seen_in))]
fn seen(earlier: &[Entry], e: Entry) -> bool
    ensures { result ≡ seen_in earlier.now e }
{
    earlier.iter().any(|x| same_params(*x, e))
}

// Refusals 8, 17, 9 and 10 of the entry e, which starts at the byte `start`.
#[tactic(auto, unfolding(crate::specs::Refusals::entry_fault))]
fn entry_fault(earlier: &[Entry], e: Entry, start: usize, mask: u8) -> Result<(), Fault>
    requires { start < 2048 }
    ensures { result ≡ entry_fault mask earlier.now start e }
{
    if !is_form(e.form) {
        return Err(fault(Refusal::Form, start + FORM_IN));
    }
    if !is_width(e.form, e.w) {
        return Err(fault(Refusal::WordLength, start + WIDTH_IN));
    }
    if is_barred(mask, e.form) {
        return Err(fault(Refusal::BarredForm, start + FORM_IN));
    }
    if seen(earlier, e) {
        return Err(fault(Refusal::SameParameters, start));
    }
    Ok(())
}

// Refusals 8, 17, 9 and 10 of the entries of a book of that version, entry by entry.
#[tactic(auto, using(crate::proofs::Entries::run_at), unfolding(crate::specs::Refusals::each_fault))]
pub(crate) fn entries_fault(version: u16, es: &[Entry], mask: u8) -> Result<(), Fault>
    requires { length es.now ≤ most_entries }
    ensures { result ≡ each_fault version mask [] es.now }
{
    for (i, e) in es.iter().enumerate() {
        entry_fault(&es[..i], *e, entry_start(version, i), mask)?;
    }
    Ok(())
}

// Whether nothing stands in es.
#[tactic(auto, unfolding(crate::specs::Kept::all_none))]
pub(crate) fn all_none(es: &[Entry]) -> bool
    ensures { result ≡ all_none es.now }
{
    es.iter().all(|e| *e == NO_ENTRY)
}
