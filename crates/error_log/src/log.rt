// The error log: a host's list of notes, and what it tells of the banks.
ghost use Rattle.std.specs.Prelude.{◌≡◌, ℕ, ◌<◌, ◌≤◌, List, length, Some, None};
ghost use Rattle.stack.specs.Firsts.{first_of};
ghost use Rattle.error_log.specs.Notes.{entries_of, room, tally_of, share_of, worst_of, Worst, Noted, bank_in, index_in};

use crate::note::{Note, due};
use codec::word::Finding;
use stack::located::first_at;
use stack::refusal::Refusal;
use std::cmp::Reverse;

// how many notes of a list a log takes at most
const MOST: usize = 65536;

// A lent list of notes, of which the first `used` are used; a count beyond the list, or beyond 65,536, means a full log.
// The host keeps list and count, since the log takes no heap.
#[derive(Drop)]
pub struct Log<'a> {
    pub notes: &'a mut [Note],
    pub used: usize,
}

impl Log<'_> {
    // How many notes the log can have.
    fn capacity(&self) -> usize
        ensures is_the_room { result ≡ room self.now.notes.now }
    {
        self.notes.len().min(MOST)
    }

    // The used notes, in the order made.
    pub fn entries(&self) -> &[Note]
        ensures are_the_used_notes { result.now ≡ entries_of self.now.notes.now self.now.used }
    {
        &self.notes[..self.used.min(self.capacity())]
    }

    // Notes what a read or a write of an address answered, where a note is due.
    pub fn note(&mut self, address: usize, answer: &Result<Finding, Refusal>) -> Result<(), Refusal>
        ensures appends_at_most_one_note { Noted address answer.now self.old.notes.now self.old.used result
            self.new.notes.now self.new.used }
    {
        let Some(note) = due(address, answer) else {
            return Ok(());
        };
        if self.used >= self.capacity() {
            return Err(Refusal::LogFull);
        }
        self.notes[self.used] = note;
        self.used += 1;
        Ok(())
    }

    // How many notes a bank's addresses have.
    pub fn tally(&self, bank: usize) -> usize
        ensures counts_the_bank_s_notes { result ≡ tally_of bank (entries_of self.now.notes.now self.now.used) }
    {
        count(self.entries(), bank)
    }

    // The bank with the highest tally, the lowest number among equals; none where the log is empty.
    pub fn worst(&self) -> Option<usize>
        ensures is_the_worst_bank { result ≡ worst_of (entries_of self.now.notes.now self.now.used) }
        ensures has_the_highest_tally { Worst (entries_of self.now.notes.now self.now.used) result }
    {
        worst_in(self.entries())
    }

    // A bank's part of all notes in thousandths, to the nearest, a half upward; 0 where the log is empty.
    pub fn share(&self, bank: usize) -> usize
        ensures is_the_bank_s_share { result ≡ share_of bank (entries_of self.now.notes.now self.now.used) }
    {
        let entries = self.entries();
        if entries.is_empty() {
            return 0;
        }
        (2 * count(entries, bank) * 1000 + entries.len()) / (2 * entries.len())
    }

    // Where the first note of a bank and index stands.
    pub fn first(&self, bank: usize, index: usize) -> Option<usize>
        ensures is_the_first_note { result ≡ first_of bank_in index_in bank index (entries_of self.now.notes.now self.now.used) }
    {
        first_at(self.entries(), bank, index)
    }
}

// How many notes of a list a bank has.
fn count(notes: &[Note], bank: usize) -> usize
    ensures is_the_tally { result ≡ tally_of bank notes.now }
    ensures no_more_than_there_are { result ≤ length notes.now }
{
    // no `filter` with `count`: their loop leaves off at each note that counts, and takes several times as long
    notes
        .iter()
        .map(|note| usize::from(note.bank == bank))
        .sum()
}

// The bank from 0 to 63 with the highest tally, the lowest number among equals.
fn worst_in(notes: &[Note]) -> Option<usize>
    ensures is_the_worst_bank { result ≡ worst_of notes.now }
    ensures has_the_highest_tally { Worst notes.now result }
{
    if notes.is_empty() {
        return None;
    }
    // `max_by_key` would give the last among equals.
    (0..64).min_by_key(|bank| Reverse(count(notes, *bank)))
}
