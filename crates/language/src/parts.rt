// Lines of a script, and the fields of a line.
ghost use Rattle.std.specs.Prelude.{◌≡◌, ◌<◌, [], ◌∷◌, length, IfSome, MatchOption, slice_index_or};
ghost use Rattle.std.specs.Iterator.{YieldsFirstRef, item_count};
ghost use Rattle.language.specs.Parts.{fields, lines};

const NEWLINE: u8 = b'\n';

const TAB: u8 = b'\t';

// The first line and what follows it, unless nothing is left.
pub fn next_line(text: &[u8]) -> Option<(&[u8], &[u8])>
    ensures parts_the_first_line { MatchOption result (text.now ≡ []) (λ p. lines text.now ≡ p.0.now ∷ lines p.1.now) }
    ensures leaves_less { IfSome result (λ p. length p.1.now < length text.now) }
{
    match text.iter().position(|b| *b == NEWLINE) {
        Some(end) => Some((&text[..end], &text[end + 1..])),
        None if text.is_empty() => None,
        None => Some((text, &[])),
    }
}

// The lines of a text that are left, in order.
#[derive(Drop)]
pub struct Lines<'a>(pub &'a [u8]);

impl<'a> Iterator for Lines<'a> {
    type Item = &'a [u8];

    ghost next_gives = { YieldsFirstRef (λ s. lines s.0.now) };

    ghost remaining = { item_count (λ s. lines s.0.now) };

    #[tactic(auto, using(crate::proofs::PartLaws::no_lines))]
    fn next(&mut self) -> Option<&'a [u8]> {
        let (line, rest) = next_line(self.0)?;
        self.0 = rest;
        Some(line)
    }
}

// How many fields a line has: one more than its tabs.
pub fn count_fields(line: &[u8]) -> usize
    ensures counts_them { result ≡ length (fields line.now) }
{
    // no `split` with `count`: their loop leaves off at each tab, and takes several times as long where there are many
    let tabs: usize = line.iter().map(|b| usize::from(*b == TAB)).sum();
    tabs + 1
}

// The field of that number, from 0 on; an empty one where there are fewer.
pub fn field(line: &[u8], number: usize) -> &[u8]
    ensures is_that_field { result.now ≡ slice_index_or (fields line.now) number [] }
{
    line.split(|b| *b == TAB).nth(number).unwrap_or(&[])
}
