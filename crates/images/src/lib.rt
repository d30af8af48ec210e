// Answers as bytes, for the C interface.
// It touches `answers` and `words`.
#![tactic(auto)]

ghost use Rattle.std.specs.Prelude.{◌≡◌, [], ◌∷◌, ◌*◌, ◌≤◌, length};
ghost use Rattle.words.specs.Le.{serialised};
ghost use Rattle.images.specs.Answers.{kind_of, first_of, second_of, answer_image};
ghost use Rattle.images.specs.Back.{altered_in, refusal_in, answer_in};

use answers::{Answer, Carried, Place, Refusal};

// 4-15: the kind of place, the first value, the second value.
fn values(c: Option<Carried>) -> [u32; 3]
    ensures { result ≡ kind_of c ∷ first_of c ∷ second_of c ∷ [] }
{
    match c {
        None => [0, 0, 0],
        Some(Carried::At(Place::Head)) => [1, 0, 0],
        Some(Carried::At(Place::Record(n))) => [2, n, 0],
        Some(Carried::At(Place::Node(i))) => [3, i, 0],
        Some(Carried::At(Place::Flake(n, f))) => [4, n, f],
        Some(Carried::Many(k)) => [0, k, 0],
        Some(Carried::Nugget(n)) => [0, n, 0],
    }
}

// Numbers in a row, 4 bytes each.
pub fn row<const N: usize>(xs: &[u32]) -> [u8; N]
    requires { N ≡ 4 * length xs.now }
    ensures { result ≡ serialised xs.now }
{
    let mut out = [0; N];
    for (i, x) in xs.iter().enumerate() {
        words::store32(&mut out, 4 * i, *x);
    }
    out
}

// The answer's image.
pub fn answer_image(a: Answer) -> [u8; 16]
    ensures { result ≡ answer_image a }
{
    let [kind, first, second] = values(answers::carried_by(a));
    row(&[answers::number(a), kind, first, second])
}

// Answer 7 by its kind of place; acceptance for a kind that is none.
fn altered_in(kind: u32, a: u32, b: u32) -> Answer
    ensures { result ≡ altered_in kind a b }
{
    match kind {
        1 => Err(Refusal::Altered(Place::Head)),
        2 => Err(Refusal::Altered(Place::Record(a))),
        3 => Err(Refusal::Altered(Place::Node(a))),
        4 => Err(Refusal::Altered(Place::Flake(a, b))),
        _ => Ok(()),
    }
}

fn refusal_in(n: u32, kind: u32, a: u32, b: u32) -> Answer
    ensures { result ≡ refusal_in n kind a b }
{
    match n {
        1 => Err(Refusal::Limits),
        2 => Err(Refusal::Length),
        3 => Err(Refusal::Mark),
        4 => Err(Refusal::Seal),
        5 => Err(Refusal::OldSecret),
        6 => Err(Refusal::Counter),
        7 => altered_in(kind, a, b),
        8 => Err(Refusal::PastEnd),
        9 => Err(Refusal::State),
        10 => Err(Refusal::SameSecret),
        11 => Err(Refusal::Left(a)),
        12 => Err(Refusal::Moved),
        13 => Err(Refusal::CounterTop),
        15 => Err(Refusal::EpochTop),
        16 => Err(Refusal::Discarded(a)),
        _ => Ok(()),
    }
}

fn read_back(image: &[u8]) -> Answer
    requires { 16 ≤ length image.now }
    ensures { result ≡ answer_in image.now }
{
    refusal_in(
        words::load32(image, 0),
        words::load32(image, 4),
        words::load32(image, 8),
        words::load32(image, 12),
    )
}

// The refusal that an answer's image tells; acceptance if it tells none.
pub fn answer_in(image: &[u8; 16]) -> Answer
    ensures { result ≡ answer_in image.now }
{
    read_back(image)
}
