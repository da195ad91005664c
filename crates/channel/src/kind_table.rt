// The table of kinds: byte to kind number, 256 entries in sixteen rows.
ghost use Rattle.std.specs.Prelude.{◌≡◌, [], ℕ, ◌+◌, ◌*◌, ◌/◌, ◌%◌, ◌<◌, get_or};
ghost use Rattle.channel.specs.Kinds.{kind_number};

// A row for each B1 to B4, in it an entry for each B5 to B8: 0 unassigned, 1 DL, 2 DH, 3 Sd, 4 Sgvi, 5 to 9 Sgp0 to Sgp4, 10 Sgr, 11 Sgss,
// 12 Sgidle, 13 Sgdis.
// Numbers, not an enum: document 01 has each byte's kind as a number, and `kind_number` says which; `Kind` is what is made of it.
const KINDS: [[u8; 16]; 16] = [
    [0, 0, 3, 3, 1, 1, 5, 5, 0, 0, 3, 3, 2, 2, 0, 0], // 06 07 Sgp0
    [0, 0, 3, 3, 1, 1, 6, 6, 0, 0, 3, 3, 2, 2, 0, 0], // 16 17 Sgp1
    [0, 0, 3, 3, 1, 1, 7, 7, 0, 0, 3, 3, 2, 2, 0, 0], // 26 27 Sgp2
    [0, 0, 3, 3, 1, 1, 8, 8, 0, 0, 3, 3, 2, 2, 0, 0], // 36 37 Sgp3
    [0, 0, 3, 3, 1, 1, 9, 9, 0, 0, 3, 3, 2, 2, 0, 0], // 46 47 Sgp4
    [0, 0, 3, 3, 1, 1, 4, 4, 0, 0, 3, 3, 2, 2, 0, 0], // 56 57 Sgvi
    [0, 0, 3, 3, 1, 1, 10, 10, 0, 0, 3, 3, 2, 2, 0, 0], // 66 67 Sgr
    [0, 0, 3, 3, 1, 1, 11, 11, 0, 0, 3, 3, 2, 2, 12, 12], // 76 77 Sgss, 7E 7F Sgidle
    [0, 0, 3, 3, 1, 1, 0, 0, 0, 0, 3, 3, 2, 2, 0, 0],
    [0, 0, 3, 3, 1, 1, 0, 0, 0, 0, 3, 3, 2, 2, 0, 0],
    [0, 0, 3, 3, 1, 1, 0, 0, 0, 0, 3, 3, 2, 2, 0, 0],
    [0, 0, 3, 3, 1, 1, 0, 0, 0, 0, 3, 3, 2, 2, 0, 0],
    [0, 0, 3, 3, 1, 1, 0, 0, 0, 0, 3, 3, 2, 2, 0, 0],
    [0, 0, 3, 3, 1, 1, 0, 0, 0, 0, 3, 3, 2, 2, 0, 0],
    [0, 0, 3, 3, 1, 1, 0, 0, 0, 0, 3, 3, 2, 2, 0, 0],
    [0, 0, 3, 3, 1, 1, 0, 0, 0, 0, 3, 3, 2, 2, 13, 13], // FE FF Sgdis
];

// The table agrees with the rules at every entry.
fn kinds() -> [[u8; 16]; 16]
    ensures { (b : ℕ) → b < 256 → get_or (get_or result (b / 16) []) (b % 16) 0 ≡ kind_number b }
{
    KINDS
}

// One row of the table. A constant array is built on the stack wherever it is used; of one whose rows are each taken by a number that is
// written out, only the row that is taken is built.
pub(crate) fn row(high: u8) -> [u8; 16]
    requires { high < 16 }
    ensures { (low : ℕ) → low < 16 → get_or result low 0 ≡ kind_number (16 * high + low) }
{
    let table = kinds();
    match high {
        0x0 => table[0],
        0x1 => table[1],
        0x2 => table[2],
        0x3 => table[3],
        0x4 => table[4],
        0x5 => table[5],
        0x6 => table[6],
        0x7 => table[7],
        0x8 => table[8],
        0x9 => table[9],
        0xA => table[10],
        0xB => table[11],
        0xC => table[12],
        0xD => table[13],
        0xE => table[14],
        _ => table[15],
    }
}
