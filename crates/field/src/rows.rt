// The check of a line, eight bytes at a time, by tables.
ghost use Rattle.std.specs.Prelude.{◌≡◌, ◌<◌};
ghost use Rattle.field.specs.Field.{mul, pow};
ghost use Rattle.field.specs.Rows.{part, packed, advanced};

use crate::carry_table::CARRY;
use crate::row_table::ROWS;

// Eight bytes of a line.
pub type Row = [u8; 8];

// What byte v at place j of eight adds to the check.
fn entry(j: usize, v: u8) -> u64
    requires one_of_eight { j < 8 }
    ensures is_the_part { result ≡ part j v }
{
    ROWS[256 * j + v as usize]
}

// The second check of the bytes so far, as it stands eight bytes later.
fn carry(e: u8, f: u8) -> u64
    ensures is_moved_on { result ≡ packed 0 0 0 0 e (mul f (pow 40)) }
{
    e as u64 * 4294967296 + CARRY[f as usize]
}

// The check of some bytes and eight more, from that of the bytes.
pub fn advance(check: u64, row: &Row) -> u64
    ensures takes_the_check_on { result ≡ advanced check row.now }
{
    let c = check.to_le_bytes();
    let late = (entry(4, row[4]) ^ entry(5, row[5])) ^ (entry(6, row[6]) ^ entry(7, row[7]));
    let early = (entry(0, row[0] ^ c[0]) ^ entry(1, row[1] ^ c[1]))
        ^ (entry(2, row[2] ^ c[2]) ^ entry(3, row[3] ^ c[3]));
    early ^ (late ^ carry(c[4], c[5]))
}
