// Document 02, Item 12: "Import decrypts such a buffer and writes it whole at offset 0".
// It touches `handing` for the tests before the paths, `writing` and `laying` for tests and stores of a write, `sectors` for the cipher,
// and `nuggets`, `drive`, `layout` and `answers`; of `keys`, `records` and `changes` the definitions alone.
#![tactic(auto)]

mod encrypted;

ghost use Rattle.std.specs.Prelude.{◌≡◌};
ghost use Rattle.handing.specs.Handing.{import_answer, import_done, import_volume};

use answers::Answer;
use drive::{Done, Drive};
use encrypted::Encrypted;

// The tests before the paths, and those of the write.
fn admit(d: Drive, vol: &[u8], one: [u8; 32], two: [u8; 32], len: usize) -> Answer
    ensures { result ≡ import_answer d vol.now one two len }
{
    handing::admit(d, vol, one, two, len)?;
    writing::admit(d, vol, 0, len)
}

// "it counts as that one write": its tests, and then its stores. `one` is the key for sectors, `two` the key for tweaks.
pub fn import(d: Drive, vol: &mut [u8], one: [u8; 32], two: [u8; 32], bytes: &[u8]) -> Done
    ensures { (result ≡ import_done d vol.old one two bytes.now)
        × (vol.new ≡ import_volume d vol.old one two bytes.now) }
{
    let answer = admit(d, vol, one, two, bytes.len());
    let drive = if answer.is_ok() {
        writing::store(d, vol, &Encrypted { one, two, bytes })
    } else {
        d
    };
    Done { answer, drive }
}
