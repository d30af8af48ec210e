// Document 02, Item 12: "Write the contents into a second buffer as XTS-AES": the tests before the paths, and export.
// It touches `reading` for the contents, `sectors` for the cipher, and `drive`, `layout`, `answers` and `words` for the tests; of
// `changes`, `records` and `nuggets` the definitions alone.
#![tactic(auto)]

ghost use Rattle.std.specs.Prelude.{◌≡◌, length};
ghost use Rattle.handing.specs.Handing.{in_sectors, keys_answer, hand_answer, export_answer, export_buffer};

use answers::{Answer, Refusal};
use drive::Drive;
use layout::Shape;

// "2 if N P F isn't a multiple of 512 or the buffer isn't N P F long"
fn in_sectors(s: Shape, len: usize) -> bool
    ensures { result ≡ in_sectors s len }
{
    let whole = layout::capacity_of(s);
    whole % 512 == 0 && len == whole
}

// "2 if [..]; then 10 if the two XTS keys are equal"
fn length_then_keys(fits: bool, twice: bool) -> Answer
    ensures { result ≡ keys_answer fits twice }
{
    if !fits {
        Err(Refusal::Length)
    } else if twice {
        Err(Refusal::SameSecret)
    } else {
        Ok(())
    }
}

// "Refusals: after 7 head", those two.
pub fn admit(d: Drive, vol: &[u8], one: [u8; 32], two: [u8; 32], len: usize) -> Answer
    ensures { result ≡ hand_answer d vol.now one two len }
{
    drive::opening(d, vol)?;
    let fits = in_sectors(drive::shape_of(d), len);
    length_then_keys(fits, words::equal(&one, &two))
}

// "then as for a read [..] of the whole": the contents are read into the buffer, and encrypted where they stand. `one` is the key for
// sectors, `two` the key for tweaks.
// Two keys one by one: C lends them so, and `export_answer` takes both.
pub fn export(d: Drive, vol: &[u8], one: [u8; 32], two: [u8; 32], out: &mut [u8]) -> Answer
    ensures { (result ≡ export_answer d vol.now one two (length out.old))
        × (out.new ≡ export_buffer d vol.now one two out.old) }
{
    admit(d, vol, one, two, out.len())?;
    reading::read(d, vol, 0, out)?;
    sectors::encrypt(out, one, two, 0);
    Ok(())
}
