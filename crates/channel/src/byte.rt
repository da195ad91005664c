// The channel byte: one fixed byte for each signalling code, and the bytes that carry leads or a nibble.
ghost use Rattle.std.specs.Prelude.{◌≡◌};
ghost use Rattle.channel.specs.Bytes.{byte, signalling, sd_byte, dl_byte, dh_byte};

// A byte as it goes on the channel. B1 goes first and is the top bit.
#[derive(Clone, Copy, PartialEq, Eq, Debug)]
pub struct ChannelByte(pub u8);

// The leads s0 to s3, each by its name, as the definitions take them.
#[derive(Clone, Copy, PartialEq, Eq, Debug)]
pub struct Leads {
    pub s0: bool,
    pub s1: bool,
    pub s2: bool,
    pub s3: bool,
}

impl ChannelByte {
    pub const SGVI: ChannelByte = ChannelByte(0x57);

    pub const SGP0: ChannelByte = ChannelByte(0x07);

    pub const SGP1: ChannelByte = ChannelByte(0x17);

    pub const SGP2: ChannelByte = ChannelByte(0x27);

    pub const SGP3: ChannelByte = ChannelByte(0x37);

    pub const SGP4: ChannelByte = ChannelByte(0x47);

    pub const SGR: ChannelByte = ChannelByte(0x67);

    pub const SGSS: ChannelByte = ChannelByte(0x77);

    pub const SGIDLE: ChannelByte = ChannelByte(0x7F);

    pub const SGDIS: ChannelByte = ChannelByte(0xFF);

    pub const SDIDLE: ChannelByte = ChannelByte(0x43);

    // The signalling code that the table of kinds numbers so: 4 Sgvi, 5 to 9 Sgp0 to Sgp4, 10 Sgr, 11 Sgss, 12 Sgidle, 13 Sgdis;
    // Sdidle for any other number. A number, as the table has it, since any has its byte.
    #[tactic(auto, unfolding(crate::specs::Bytes::signalling))]
    pub fn signalling(number: u8) -> ChannelByte
        ensures { result ≡ byte (signalling number) }
    {
        match number {
            4 => ChannelByte::SGVI,
            5 => ChannelByte::SGP0,
            6 => ChannelByte::SGP1,
            7 => ChannelByte::SGP2,
            8 => ChannelByte::SGP3,
            9 => ChannelByte::SGP4,
            10 => ChannelByte::SGR,
            11 => ChannelByte::SGSS,
            12 => ChannelByte::SGIDLE,
            13 => ChannelByte::SGDIS,
            _ => ChannelByte::SDIDLE,
        }
    }

    // Sd: s3 s2 s1 s0 BK 0 1 1.
    #[tactic(auto, using(crate::proofs::Built::sd_value))]
    pub fn sd(leads: Leads, bk: bool) -> ChannelByte
        ensures { result ≡ byte (sd_byte leads bk) }
    {
        ChannelByte(
            u8::from(leads.s3) * 128
                + u8::from(leads.s2) * 64
                + u8::from(leads.s1) * 32
                + u8::from(leads.s0) * 16
                + u8::from(bk) * 8
                + 3,
        )
    }

    // DL: bits 3 to 0 of a value, then 0101.
    #[tactic(auto, using(crate::proofs::Built::dl_value))]
    pub fn dl(value: u8) -> ChannelByte
        ensures { result ≡ byte (dl_byte value) }
    {
        ChannelByte(value % 16 * 16 + 5)
    }

    // DH: bits 7 to 4 of a value, then 1101.
    #[tactic(auto, using(crate::proofs::Built::dh_value))]
    pub fn dh(value: u8) -> ChannelByte
        ensures { result ≡ byte (dh_byte value) }
    {
        ChannelByte(value / 16 * 16 + 13)
    }
}
