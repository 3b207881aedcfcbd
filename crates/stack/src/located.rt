// Entries of a bank and an index, and how the first of them is found.
ghost use Rattle.std.specs.Prelude.{◌≡◌, ℕ};
ghost use Rattle.stack.specs.Firsts.{first_of};

// An entry that belongs to one bank and index.
pub trait Located {
    ghost bank_of: { Self → ℕ };

    ghost index_of: { Self → ℕ };

    fn bank(&self) -> usize
        ensures is_bank { result ≡ bank_of self.now };

    fn index(&self) -> usize
        ensures is_index { result ≡ index_of self.now };
}

// Where the first entry of that bank and index stands.
pub fn first_at<E: Located>(entries: &[E], bank: usize, index: usize) -> Option<usize>
    ensures is_first { result ≡ first_of E.Located.bank_of E.Located.index_of bank index entries.now }
{
    entries
        .iter()
        .position(|entry| entry.bank() == bank && entry.index() == index)
}
