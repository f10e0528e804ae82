// Numbers and bytes as they are written in a command.
ghost use Rattle.std.specs.Prelude.{◌≡◌, ◌+◌, ◌-◌, ◌*◌, ◌&&◌, IfOk, if◌then◌else◌, Some, None, is_some, vec_items, nat_le};
ghost use Rattle.std.specs.Option.{option_map};
ghost use Rattle.commands.specs.Numerals.{number_to, hex_bytes, hex};
ghost use Rattle.commands.specs.Verbs.{all_words};

use std::alloc::{AllocError, Global};

// The value of digits whose last is `b` and whose others have the value `value`: none where `b` is no
// digit, or the value is no word.
fn one_more(value: u64, b: u8) -> Option<u64>
    ensures { result ≡ (if nat_le 48 b && nat_le b 57 then (if nat_le (10 * value + (b - 48)) all_words then Some (10 * value + (b - 48)) else None) else None) }
{
    if !b.is_ascii_digit() {
        return None;
    }
    value.checked_mul(10)?.checked_add(u64::from(b - b'0'))
}

// The number that a field of one or more decimal digits stands for, where it is a word; leading zeros are
// allowed, any number of them.
pub(crate) fn number(field: &[u8]) -> Option<u64>
    ensures { result ≡ number_to all_words field.now }
{
    if field.is_empty() {
        return None;
    }
    let mut value = 0;
    for b in field {
        value = one_more(value, *b)?;
    }
    Some(value)
}

// Whether these are pairs of hex digits, of either case.
fn is_hex(field: &[u8]) -> bool
    ensures { result ≡ is_some (hex_bytes field.now) }
{
    field.len() % 2 == 0 && field.iter().all(|digit| digit.is_ascii_hexdigit())
}

// The bytes of pairs of hex digits; none where a digit is bad or has no other beside it, also where there is no
// memory for them. Where the first pair is bad, no memory is asked for.
fn pairs(heap: Global, field: &[u8]) -> Result<Option<Vec<u8>>, AllocError>
    ensures { IfOk result (λ o. option_map vec_items o ≡ hex_bytes field.now) }
{
    if !is_hex(&field[..field.len().min(2)]) {
        return Ok(None);
    }
    let Ok(mut bytes) = vec![in heap; 0u8; field.len() / 2] else {
        return if is_hex(field) {
            Err(AllocError)
        } else {
            Ok(None)
        };
    };
    match hex::decode_to_slice(field, &mut bytes) {
        Ok(()) => Ok(Some(bytes)),
        Err(_) => Ok(None),
    }
}

// The bytes that a field stands for, hex digits in pairs of either case, or `-` alone for no bytes; none
// where it is neither.
pub(crate) fn bytes(heap: Global, field: &[u8]) -> Result<Option<Vec<u8>>, AllocError>
    ensures { IfOk result (λ o. option_map vec_items o ≡ hex field.now) }
{
    match field {
        [] => Ok(None),
        [b'-'] => Ok(Some(Vec::new(heap))),
        _ => pairs(heap, field),
    }
}
