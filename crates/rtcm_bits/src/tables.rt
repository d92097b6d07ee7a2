//! The tables of CRC-24Q: the contribution of each byte, by the number of bytes that follow it.
ghost use Rattle.std.specs.Prelude.{◌≡◌, ◌^◌, ◌<◌, ◌∷◌, replicate};
ghost use Rattle.rtcm_bits.specs.Crc.{crc};

/// Writes an array of the sums (exclusive or) of the numbers of each row: entry `i` of a row is the
/// sum of those at the places of the bits of `i`. Each number doubles the list of the sums so far.
macro_rules! sums {
    ($([$($sum:expr),*];)*) => {
        [$($($sum),*),*]
    };
    ($([$($sum:expr),*], $next:expr $(, $later:expr)*;)*) => {
        sums![$([$($sum,)* $($sum ^ $next),*] $(, $later)*;)*]
    };
}

/// Sixteen consecutive tables: the CRC of each byte followed by 0 to 15 bytes of 0. A row has the
/// CRCs of the eight bytes of one bit, the lowest first: the remainders of x^24 to x^31 in the first
/// row, x^32 to x^39 in the second.
const TABLES: [u32; 4096] = sums![
    [0], 0x864CFB, 0x8AD50D, 0x93E6E1, 0xA18139, 0xC54E89, 0x0CD1E9, 0x19A3D2, 0x3347A4;
    [0], 0x668F48, 0xCD1E90, 0x1C71DB, 0x38E3B6, 0x71C76C, 0xE38ED8, 0x41514B, 0x82A296;
    [0], 0x8309D7, 0x805F55, 0x86F251, 0x8BA859, 0x911C49, 0xA47469, 0xCEA429, 0x1B04A9;
    [0], 0x360952, 0x6C12A4, 0xD82548, 0x36066B, 0x6C0CD6, 0xD819AC, 0x367FA3, 0x6CFF46;
    [0], 0xD9FE8C, 0x35B1E3, 0x6B63C6, 0xD6C78C, 0x2BC3E3, 0x5787C6, 0xAF0F8C, 0xD853E3;
    [0], 0x36EB3D, 0x6DD67A, 0xDBACF4, 0x311513, 0x622A26, 0xC4544C, 0x0EE463, 0x1DC8C6;
    [0], 0x3B918C, 0x772318, 0xEE4630, 0x5AC09B, 0xB58136, 0xED4E97, 0x5CD1D5, 0xB9A3AA;
    [0], 0xF50BAF, 0x6C5BA5, 0xD8B74A, 0x37226F, 0x6E44DE, 0xDC89BC, 0x3F5F83, 0x7EBF06;
    [0], 0xFD7E0C, 0x7CB0E3, 0xF961C6, 0x748F77, 0xE91EEE, 0x547127, 0xA8E24E, 0xD78867;
    [0], 0x295C35, 0x52B86A, 0xA570D4, 0xCCAD53, 0x1F165D, 0x3E2CBA, 0x7C5974, 0xF8B2E8;
    [0], 0x77292B, 0xEE5256, 0x5AE857, 0xB5D0AE, 0xEDEDA7, 0x5D97B5, 0xBB2F6A, 0xF0122F;
    [0], 0x6668A5, 0xCCD14A, 0x1FEE6F, 0x3FDCDE, 0x7FB9BC, 0xFF7378, 0x78AA0B, 0xF15416;
    [0], 0x64E4D7, 0xC9C9AE, 0x15DFA7, 0x2BBF4E, 0x577E9C, 0xAEFD38, 0xDBB68B, 0x3121ED;
    [0], 0x6243DA, 0xC487B4, 0x0F4393, 0x1E8726, 0x3D0E4C, 0x7A1C98, 0xF43930, 0x6E3E9B;
    [0], 0xDC7D36, 0x3EB697, 0x7D6D2E, 0xFADA5C, 0x73F843, 0xE7F086, 0x49ADF7, 0x935BEE;
    [0], 0xA0FB27, 0xC7BAB5, 0x093991, 0x127322, 0x24E644, 0x49CC88, 0x939910, 0xA17EDB;
];

/// Returns the CRC of one byte followed by `zeros` bytes of 0.
pub(crate) fn entry(zeros: usize, byte: u8) -> u32
    requires { zeros < 16 }
    ensures value { result ≡ crc (byte ∷ replicate zeros 0) }
    ensures bound { result < 2 ^ 24 }
{
    TABLES[zeros * 256 + byte as usize]
}
