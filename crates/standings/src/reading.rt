// The parts of a line: where a mark stands, and the number of a field.
ghost use Rattle.std.specs.Prelude.{◌≡◌, ◌+◌, ◌-◌, ◌*◌, ◌≤◌, length, drop};
ghost use Rattle.line.specs.Reading.{up_to, past, field_at, decimal_value};
ghost use Rattle.standings.specs.Standing.{at_most};

// The place of the first byte `mark`; the end if there is none.
fn first(text: &[u8], mark: u8) -> usize
    ensures { result ≡ length (up_to mark text.now) }
{
    text.iter().position(|b| *b == mark).unwrap_or(text.len())
}

// The place of the first byte `mark` from `at` on; the end if there is none.
pub fn find(text: &[u8], at: usize, mark: u8) -> usize
    requires { at ≤ length text.now }
    ensures { result ≡ at + length (up_to mark (drop at text.now)) }
{
    at + first(&text[at..], mark)
}

// The place behind it.
pub fn behind(text: &[u8], at: usize, mark: u8) -> usize
    requires { at ≤ length text.now }
    ensures { (result ≤ length text.now) × (drop result text.now ≡ past mark (drop at text.now)) }
{
    text.len().min(find(text, at, mark) + 1)
}

// One byte more of a number.
fn grown(a: u32, b: u8) -> u32
    ensures { result ≡ at_most (a * 10 + (b - 48)) }
{
    let digit = u32::from(b.saturating_sub(b'0'));
    a.saturating_mul(10).saturating_add(digit).min(2097152)
}

// The number that decimal digits say.
fn number(digits: &[u8]) -> u32
    ensures { result ≡ at_most (decimal_value digits.now) }
{
    digits.iter().fold(0, |a, b| grown(a, *b))
}

// The number of field k.
pub(crate) fn field(line: &[u8], k: u32) -> u32
    ensures { result ≡ at_most (decimal_value (field_at k line.now)) }
{
    let mut at = 0;
    for _before in 0..k {
        at = behind(line, at, b' ');
    }
    let from = behind(line, at, b'=');
    let end = find(line, from, b' ');
    number(&line[from..end])
}
