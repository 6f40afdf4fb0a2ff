// Fields of a sheet read byte by byte: a number, a mask, a word.

ghost use Rattle.std.specs.Prelude.{◌≡◌, ◌+◌, ◌-◌, ◌*◌, ◌<◌};
ghost use Rattle.definition.specs.Text.{digit_of};
ghost use Rattle.sheet_rules.specs.Bytes.{number_byte, mask_byte, word_byte, take_byte, closed_of};

// What a field of a record looks like: none, a decimal number up to a bound, eight hexadecimal digits, a word of up to seven bytes.
#[derive(Clone, Copy)]
pub enum Form {
    Nothing,
    Number(u64),
    Mask,
    Word,
}

// What was read of a field so far: its value, and how many bytes it has (of a number, 1 for any).
#[derive(Clone, Copy)]
pub struct Num {
    pub value: u64,
    pub len: u64,
}

// The digit that a byte is, to 15; 16 for none, and no Option: as the definition has it, 16 is a digit of no base, so
// that the test of the base, which each caller makes, finds it too.
#[tactic(auto, unfolding(definition::specs::Text::digit_of))]
pub fn digit(b: u8) -> u64
    ensures { result ≡ digit_of b }
{
    match b {
        b'0'..=b'9' => u64::from(b - b'0'),
        b'a'..=b'f' => u64::from(b - b'a' + 10),
        _ => 16,
    }
}

#[tactic(auto, unfolding(crate::specs::Bytes::number_byte))]
fn number_byte(most: u64, x: Num, b: u8) -> Option<Num>
    ensures { result ≡ number_byte most x b }
{
    let d = digit(b);
    if 9 < d || u64::from(u32::MAX) < x.value || x.value < x.len {
        return None;
    }
    let value = x.value * 10 + d;
    (value <= most).then_some(Num { value, len: 1 })
}

#[tactic(auto, unfolding(crate::specs::Bytes::mask_byte))]
fn mask_byte(x: Num, b: u8) -> Option<Num>
    ensures { result ≡ mask_byte x b }
{
    let d = digit(b);
    if 15 < d || u64::from(u32::MAX) < x.value || 7 < x.len {
        return None;
    }
    Some(Num {
        value: x.value * 16 + d,
        len: x.len + 1,
    })
}

#[tactic(auto, unfolding(crate::specs::Bytes::word_byte))]
fn word_byte(x: Num, b: u8) -> Option<Num>
    ensures { result ≡ word_byte x b }
{
    if b == 0 || 281474976710655 < x.value || 6 < x.len {
        return None;
    }
    Some(Num {
        value: x.value * 256 + u64::from(b),
        len: x.len + 1,
    })
}

// One more byte of a field.
#[tactic(auto, unfolding(crate::specs::Bytes::take_byte))]
pub fn take_byte(form: Form, x: Num, b: u8) -> Option<Num>
    ensures { result ≡ take_byte form x b }
{
    match form {
        Form::Nothing => None,
        Form::Number(most) => number_byte(most, x, b),
        Form::Mask => mask_byte(x, b),
        Form::Word => word_byte(x, b),
    }
}

// Whether a field may end here.
#[tactic(auto, unfolding(crate::specs::Bytes::closed_of))]
pub fn closed(form: Form, x: Num) -> bool
    ensures { result ≡ closed_of form x }
{
    match form {
        Form::Nothing => false,
        Form::Number(_) | Form::Word => 0 < x.len,
        Form::Mask => x.len == 8,
    }
}
