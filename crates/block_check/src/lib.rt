// The checks of a block behind a pointer: refusal 13, and 7 before it. The block is read where it stands.
#![tactic(auto)]

ghost use Rattle.std.specs.Prelude.{◌≡◌};
ghost use Rattle.marks.specs.Marks.{none, none_to_send};
ghost use Rattle.checking.specs.Verdicts.{Admitted};
ghost use Rattle.block_check.specs.Lent.{lent_records};

use answers::Answer;
use checking::flights;
use control::Link;
use timing::Record;

// 7, where the lent parts are not long enough, then 13, the records of the outstanding segments in the lent table among it. The slots held
// are marked.
pub fn check(
    link: &Link,
    long: bool,
    table: &[Record],
    send_marks: &mut [u8; 128],
    receive_marks: &mut [u8; 256],
) -> Answer<()>
    requires { (send_marks.old ≡ none_to_send) × (receive_marks.old ≡ none) }
    ensures { Admitted long link.now (lent_records link.now table.now) send_marks.new receive_marks.new result }
{
    let sound = checking::sound(link, send_marks, receive_marks);
    let fit = gathering::fit(table, &link.outstanding, link.settings, link.flight);
    checking::judged(long, sound & fit)
}

// The same of records that have been gathered from the lent table.
pub fn check_gathered(
    link: &Link,
    long: bool,
    records: &[Record; 32],
    send_marks: &mut [u8; 128],
    receive_marks: &mut [u8; 256],
) -> Answer<()>
    requires { (send_marks.old ≡ none_to_send) × (receive_marks.old ≡ none) }
    ensures { Admitted long link.now records.now send_marks.new receive_marks.new result }
{
    let sound = checking::sound(link, send_marks, receive_marks);
    let flown = flights::flight_fits(records, link.settings, link.flight);
    checking::judged(long, sound & flown)
}
