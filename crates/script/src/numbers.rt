// The numbers of a line.
ghost use Rattle.std.specs.Prelude.{◌≡◌, ◌≤◌, IfSome, length};
ghost use Rattle.script.specs.Commands.{arguments, numbers_of};
ghost use Rattle.script.specs.Reading.{few, read_as};

use crate::words::{SPACE, split_before};

// The numbers behind a word, with one space in front of each, are stored at the start of `room`; the answer is their count.
// There is none where a word is no number, or there are more than there is room for.
pub(crate) fn behind(line: &[u8], room: &mut [u32]) -> Option<usize>
    ensures { (read_as room.new result ≡ few (length room.old) (numbers_of (arguments line.now)))
        × IfSome result (λ n. n ≤ length room.old) }
{
    let mut rest = line;
    let mut count = 0;
    while let Some((_, words)) = rest.split_first() {
        let (word, behind) = split_before(words, SPACE);
        let n = notation::read::number(word)?;
        if room.len() <= count {
            return None;
        }
        room[count] = n;
        count += 1;
        rest = behind;
    }
    Some(count)
}
