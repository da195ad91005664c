// Units of data on the channel: the byte of a unit and the unit of a byte.
ghost use Rattle.std.specs.Prelude.{◌≡◌, ◌<◌, ◌^◌};
ghost use Rattle.channel.specs.Bytes.{byte};
ghost use Rattle.channel.specs.Forms.{fits, unit_byte, encoded, is_data, unit_in, decoded, word_fits, encoded_word, word_of};
ghost use Rattle.channel.specs.Answers.{says_encoded, says_encoded_word, says_decoded, encoded_in_numbers, word_in_numbers, decoded_in_numbers};

use crate::byte::ChannelByte;

// A form whose unit is one byte: form 6, form 7 on version 1, form 7 on version 2, form 8.
#[derive(Clone, Copy, PartialEq, Eq, Debug)]
pub enum Form {
    Six,
    SevenV1,
    SevenV2,
    Eight,
}

// 12: the form does not have the unit, or a word of so many bits not the value.
#[derive(Clone, Copy, PartialEq, Eq, Debug)]
pub struct OutOfRange;

// Whether the form has that unit.
#[tactic(auto, unfolding(crate::specs::Forms::fits))]
pub fn fits(f: Form, unit: u8) -> bool
    ensures { result ≡ fits f unit }
{
    match f {
        Form::Six => unit < 64,
        Form::SevenV1 | Form::SevenV2 => unit < 128,
        Form::Eight => true,
    }
}

// The byte of a unit: the highest bit first or, in form 7 of version 2 and form 8, d0 first; a bit that is not the unit's is on, but for B7
// of form 6. Of a unit that the form does not have, the bits that it does have are taken.
#[tactic(auto, using(crate::proofs::Units::byte_of_unit))]
pub fn unit_byte(f: Form, unit: u8) -> ChannelByte
    ensures { result ≡ byte (unit_byte f unit) }
{
    match f {
        Form::Six => ChannelByte(unit % 64 * 4 + 1),
        Form::SevenV1 => ChannelByte(unit % 128 * 2 + 1),
        Form::SevenV2 => ChannelByte((unit % 128 + 128).reverse_bits()),
        Form::Eight => ChannelByte(unit.reverse_bits()),
    }
}

#[tactic(auto, unfolding(crate::specs::Forms::encoded))]
pub fn encode(f: Form, unit: u8) -> Result<ChannelByte, OutOfRange>
    ensures value { result ≡ encoded f unit }
    ensures says { says_encoded result ≡ encoded_in_numbers f unit }
{
    if fits(f, unit) {
        Ok(unit_byte(f, unit))
    } else {
        Err(OutOfRange)
    }
}

// Whether a received byte is data: in form 6 a byte with B7 on is none.
pub fn is_data(f: Form, b: ChannelByte) -> bool
    ensures { result ≡ is_data f b.0 }
{
    match f {
        Form::Six => b.0 / 2 % 2 == 0,
        Form::SevenV1 | Form::SevenV2 | Form::Eight => true,
    }
}

// The unit in a received byte.
#[tactic(auto, using(crate::proofs::Units::unit_of_byte))]
pub fn unit_in(f: Form, b: ChannelByte) -> u8
    ensures { result ≡ unit_in f b.0 }
{
    match f {
        Form::Six => b.0 / 4,
        Form::SevenV1 => b.0 / 2,
        Form::SevenV2 => b.0.reverse_bits() % 128,
        Form::Eight => b.0.reverse_bits(),
    }
}

#[tactic(auto, unfolding(crate::specs::Forms::decoded))]
pub fn decode(f: Form, b: ChannelByte) -> Option<u8>
    ensures value { result ≡ decoded f b.0 }
    ensures says { says_decoded result ≡ decoded_in_numbers f b.0 }
{
    if is_data(f, b) {
        Some(unit_in(f, b))
    } else {
        None
    }
}

// 2 to the w, for the w that an octet does not fill.
fn size_below_octet(w: u8) -> u8
    requires { w < 8 }
    ensures { result ≡ 2 ^ w }
{
    1 << w
}

// Whether a word of w bits has that value. Every octet is a word of 8 bits or more.
#[tactic(auto, using(crate::proofs::Words::octet_fits), unfolding(crate::specs::Forms::word_fits))]
pub fn word_fits(w: u8, value: u8) -> bool
    ensures { result ≡ word_fits w value }
{
    if w < 8 {
        value < size_below_octet(w)
    } else {
        true
    }
}

// A word as a DL and a DH.
#[tactic(auto, unfolding(crate::specs::Forms::encoded_word))]
pub fn encode_word(w: u8, value: u8) -> Result<(ChannelByte, ChannelByte), OutOfRange>
    ensures value { result ≡ encoded_word w value }
    ensures says { says_encoded_word result ≡ word_in_numbers w value }
{
    if word_fits(w, value) {
        Ok((ChannelByte::dl(value), ChannelByte::dh(value)))
    } else {
        Err(OutOfRange)
    }
}

// The word of a DL's nibble and a DH's, modulo 2 to the w.
#[tactic(auto, using(crate::proofs::Words::octet_whole), unfolding(crate::specs::Forms::word_of))]
pub fn word_of(w: u8, low: u8, high: u8) -> u8
    ensures { result ≡ word_of w low high }
{
    let value = low % 16 + high % 16 * 16;
    if 8 <= w {
        return value;
    }
    value % size_below_octet(w)
}
