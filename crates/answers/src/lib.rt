// The answers of the calls: acceptance and document 01's numbers, with places and classes.
// It touches `base` alone.
#![tactic(auto)]

ghost use Rattle.std.specs.Prelude.{◌≡◌};
ghost use Rattle.answers.specs.Numbers.{refusal_number, number_of, carried_of};
ghost use Rattle.answers.specs.Classes.{class_of};

// "altered, with its place: head, record n, node i, or flake n, f"
#[derive(Clone, Copy)]
pub enum Place {
    Head,
    Record(u32),
    Node(u32),
    Flake(u32, u32),
}

// A case for each number that is given, in their order. Document 02, Item 7: "14 goes and stays unassigned."
// Item 6: "then 16 (class request) when moving down and some nugget has a spent flake that isn't held (lowest reported)".
#[derive(Clone, Copy)]
pub enum Refusal {
    Limits,
    Length,
    Mark,
    Seal,
    OldSecret,
    Counter,
    Altered(Place),
    PastEnd,
    State,
    SameSecret,
    Left(u32),
    Moved,
    CounterTop,
    EpochTop,
    Discarded(u32),
}

// Acceptance, or the first refusal.
pub type Answer = Result<(), Refusal>;

// What a refusal may carry: 7 its place, 11 how many are left, 16 its nugget.
#[derive(Clone, Copy)]
pub enum Carried {
    At(Place),
    Many(u32),
    Nugget(u32),
}

// "Classes: answers 1 to 3 form, 4 to 6 key, 7 altered, 8 to 12 request, 13 to 15 spent." 14 is the number of no refusal, and 16 is of
// class request (document 02, Items 7 and 6).
#[derive(Clone, Copy)]
pub enum Class {
    Form,
    Key,
    Altered,
    Request,
    Spent,
}

fn refusal_number(r: Refusal) -> u32
    ensures { result ≡ refusal_number r }
{
    match r {
        Refusal::Limits => 1,
        Refusal::Length => 2,
        Refusal::Mark => 3,
        Refusal::Seal => 4,
        Refusal::OldSecret => 5,
        Refusal::Counter => 6,
        Refusal::Altered(_) => 7,
        Refusal::PastEnd => 8,
        Refusal::State => 9,
        Refusal::SameSecret => 10,
        Refusal::Left(_) => 11,
        Refusal::Moved => 12,
        Refusal::CounterTop => 13,
        Refusal::EpochTop => 15,
        Refusal::Discarded(_) => 16,
    }
}

// The answer's number in document 01's table; 0 is acceptance.
pub fn number(a: Answer) -> u32
    ensures { result ≡ number_of a }
{
    match a {
        Ok(()) => 0,
        Err(r) => refusal_number(r),
    }
}

// What the answer carries; most carry nothing.
pub fn carried_by(a: Answer) -> Option<Carried>
    ensures { result ≡ carried_of a }
{
    match a {
        Err(Refusal::Altered(p)) => Some(Carried::At(p)),
        Err(Refusal::Left(k)) => Some(Carried::Many(k)),
        Err(Refusal::Discarded(n)) => Some(Carried::Nugget(n)),
        _ => None,
    }
}

// The class of an answer's number; none for a number that is no refusal.
pub fn class_of(number: u32) -> Option<Class>
    ensures { result ≡ class_of number }
{
    match number {
        1..=3 => Some(Class::Form),
        4..=6 => Some(Class::Key),
        7 => Some(Class::Altered),
        8..=12 => Some(Class::Request),
        13 | 15 => Some(Class::Spent),
        16 => Some(Class::Request),
        _ => None,
    }
}
