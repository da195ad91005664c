// The books of the samples.

pub(crate) const EIGHT: [u8; 66] = [
    b'T', b'L', b'B', 0, 1, 1, 3, 1, 244, 8, 1, 2, 3, 4, 5, 7, 0, 2, 2, 3, 4, 5, 7, 0, 3, 2, 3, 4,
    5, 7, 0, 4, 2, 3, 4, 5, 7, 0, 5, 2, 3, 4, 5, 7, 0, 6, 2, 3, 4, 5, 7, 0, 7, 2, 3, 4, 5, 7, 0, 8,
    2, 3, 4, 5, 7, 0,
];

pub(crate) const NINE: [u8; 73] = [
    b'T', b'L', b'B', 0, 1, 1, 3, 1, 244, 9, 1, 2, 3, 4, 5, 7, 0, 2, 2, 3, 4, 5, 7, 0, 3, 2, 3, 4,
    5, 7, 0, 4, 2, 3, 4, 5, 7, 0, 5, 2, 3, 4, 5, 7, 0, 6, 2, 3, 4, 5, 7, 0, 7, 2, 3, 4, 5, 7, 0, 8,
    2, 3, 4, 5, 7, 0, 9, 2, 3, 4, 5, 7, 0,
];

// 15 Sgvi, one 43, one Sgvi.
pub(crate) const NO_RUN: [u8; 17] = [
    0x57, 0x57, 0x57, 0x57, 0x57, 0x57, 0x57, 0x57, 0x57, 0x57, 0x57, 0x57, 0x57, 0x57, 0x57, 0x43,
    0x57,
];

pub(crate) const RUN: [u8; 16] = [0x57; 16];

// An answerer's book of one entry, 01 02 03 04 05 of form 7.
pub(crate) fn one(limit: u16) -> [u8; 17] {
    let [high, low] = limit.to_be_bytes();
    [
        b'T', b'L', b'B', 0, 1, 1, 3, high, low, 1, 1, 2, 3, 4, 5, 7, 0,
    ]
}

// The originator's book, the answerer's and the delay; each has one entry of this form. Masks and forms are bytes of a book here and
// below, and numbers, since some of these books are refused.
pub(crate) fn pair(
    mask_o: u8,
    form_o: u8,
    mask_a: u8,
    form_a: u8,
    limit: u16,
    delay: u8,
) -> [u8; 35] {
    let [high, low] = limit.to_be_bytes();
    [
        b'T', b'L', b'B', 0, 1, 0, mask_o, high, low, 1, 1, 2, 3, 4, 5, form_o, 0, b'T', b'L',
        b'B', 0, 1, 1, mask_a, high, low, 1, 1, 2, 3, 4, 5, form_a, 0, delay,
    ]
}

// An originator and an answerer of mask 3 with a form 7 entry 0 and a form 8 entry 1, whose parameters the originator has; limits 500,
// delay 1.
pub(crate) fn called_on_second(mask_o: u8, form_o: u8) -> [u8; 42] {
    [
        b'T', b'L', b'B', 0, 1, 0, mask_o, 1, 244, 1, 1, 2, 3, 4, 6, form_o, 0, b'T', b'L', b'B',
        0, 1, 1, 3, 1, 244, 2, 1, 2, 3, 4, 5, 7, 0, 1, 2, 3, 4, 6, 8, 0, 1,
    ]
}

// An answerer's two entries, the second of this form and word length: two bytes of an entry, as a book has them.
pub(crate) fn two(form: u8, w: u8) -> [u8; 24] {
    [
        b'T', b'L', b'B', 0, 1, 1, 3, 1, 244, 2, 1, 2, 3, 4, 5, 7, 0, 1, 2, 3, 4, 6, form, w,
    ]
}
