// Commands as lines spell them.
ghost use Rattle.std.specs.Prelude.{◌≡◌, Some};
ghost use Rattle.language.specs.Parts.{fields};
ghost use Rattle.language.specs.Commands.{call_in, command_in, fault_in, letter_of_call, lone_number, number_and_byte, of_count};

use super::parts::{count_fields, field};
use super::reading::{byte, delay, kind, number};
use layers::fault::Fault;
use rules::calls::Call;

// The bytes of a line, and of the work buffer that a scrub or a mark takes.
const LINE: usize = 64;

const WORK: usize = 4096;

// A fault for the memory, or a call of the board; a line to be stored is given by the byte that fills it.
#[derive(Clone, Copy)]
pub enum Command {
    Inject(Fault),
    Do(Call<u8>),
}

// The letter of a call, as the rules give it.
pub fn letter_of(call: &Call<u8>) -> u8
    ensures is_its_letter { result ≡ letter_of_call call.now }
{
    match call {
        Call::Read { .. } => b'R',
        Call::Write { .. } => b'W',
        Call::Renew { .. } => b'N',
        Call::Clear { .. } => b'C',
        Call::Scrub { .. } => b'S',
        Call::Mark { .. } => b'M',
        Call::Settle => b'T',
        Call::Pass => b'P',
    }
}

// The command that a line spells, unless it is unreadable.
#[tactic(auto, unfolding(crate::specs::Commands::command_in))]
pub fn read_command(line: &[u8]) -> Option<Command>
    ensures is_what_it_spells { result ≡ command_in line.now }
{
    let [letter] = field(line, 0) else {
        return None;
    };
    match *letter {
        b'X' => read_fault(line).map(Command::Inject),
        letter => read_call(letter, line).map(Command::Do),
    }
}

// The call that a line with that letter spells; letters are matched as literals, which the rules of this project ask for.
fn read_call(letter: u8, line: &[u8]) -> Option<Call<u8>>
    ensures is_what_it_spells { result ≡ call_in letter (fields line.now) }
{
    match letter {
        b'R' => {
            let address = lone_number(line)?;
            Some(Call::Read {
                address,
                length: LINE,
            })
        }
        b'W' => {
            let (address, line) = number_and_byte(line)?;
            Some(Call::Write { address, line })
        }
        b'N' => {
            let (address, line) = number_and_byte(line)?;
            Some(Call::Renew { address, line })
        }
        b'C' => {
            let address = lone_number(line)?;
            Some(Call::Clear { address })
        }
        b'S' => {
            let address = lone_number(line)?;
            Some(Call::Scrub {
                address,
                length: WORK,
            })
        }
        b'M' => {
            let bank = lone_number(line)?;
            Some(Call::Mark { bank, length: WORK })
        }
        b'P' => alone(line, Call::Pass),
        b'T' => alone(line, Call::Settle),
        _ => None,
    }
}

// A call that takes no further field.
fn alone(line: &[u8], call: Call<u8>) -> Option<Call<u8>>
    ensures takes_no_field { result ≡ of_count 1 (fields line.now) (Some call) }
{
    (count_fields(line) == 1).then_some(call)
}

// The number that is the only further field.
// Fields are fetched by number, since an array of N references, N a parameter, has no proof yet.
fn lone_number(line: &[u8]) -> Option<usize>
    ensures is_what_it_spells { result ≡ lone_number (fields line.now) }
{
    if count_fields(line) != 2 {
        return None;
    }
    number(field(line, 1))
}

// The number and the byte that are the only further fields.
fn number_and_byte(line: &[u8]) -> Option<(usize, u8)>
    ensures is_what_it_spells { result ≡ number_and_byte (fields line.now) }
{
    if count_fields(line) != 3 {
        return None;
    }
    Some((number(field(line, 1))?, byte(field(line, 2))?))
}

// The fault that six further fields spell.
fn read_fault(line: &[u8]) -> Option<Fault>
    ensures is_what_it_spells { result ≡ fault_in (fields line.now) }
{
    if count_fields(line) != 7 {
        return None;
    }
    Some(Fault {
        bank: number(field(line, 1))?,
        index: number(field(line, 2))?,
        byte: number(field(line, 3))?,
        kind: kind(field(line, 4))?,
        mask: byte(field(line, 5))?,
        delay: delay(field(line, 6))?,
    })
}
