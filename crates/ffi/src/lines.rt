// Lines handed out.
ghost use Rattle.std.specs.Prelude.{◌≡◌, length, if◌then◌else◌, nat_eq};

use codec::word::Line;

// Copies a line into a buffer of 64 bytes, and leaves any other. The line goes by an array of its own, so that it is moved in wide steps: the
// compiler cannot know that the two do not overlap.
pub(crate) fn copy_line(line: &Line, into: &mut [u8])
    ensures copies_where_it_fits { into.new ≡ (if nat_eq (length into.old) 64 then line.now else into.old) }
{
    if into.len() == 64 {
        let own = *line;
        into.copy_from_slice(&own);
    }
}
