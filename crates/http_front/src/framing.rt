//! How long a body is.
ghost use Rattle.std.specs.Prelude.{◌≡◌, true, find};
ghost use Rattle.std.specs.List.{list_all, list_any};
ghost use Rattle.std.specs.Option.{option_copied};
ghost use Rattle.std.specs.Str.Parse.{digits_value};
ghost use Rattle.edge_base.specs.Token.{is_digit};
ghost use Rattle.http_front.specs.Framing.{is_named, has_coding, tells_length, is_length, agrees, length_of, framing_of};

use crate::causes::HeadFault;
use edge_base::Header;

/// The most bytes of a body.
const BODY_MAX: u64 = 1 << 20;

/// Whether a header has a name, ASCII case ignored.
pub(crate) fn is_named(name: &[u8], header: &Header) -> bool
    ensures { result ≡ is_named name.now header.now }
{
    header.name.bytes().eq_ignore_ascii_case(name)
}

/// Whether the body is coded in some way.
fn has_coding(headers: &[Header]) -> bool
    ensures { result ≡ has_coding headers.now }
{
    headers
        .iter()
        .any(|header| is_named(b"transfer-encoding", header))
}

/// Whether a header tells a length.
fn tells_length(header: &Header) -> bool
    ensures { result ≡ tells_length header.now }
{
    is_named(b"content-length", header)
}

/// The first header that tells a length.
fn first_length(headers: &[Header]) -> Option<&Header>
    ensures { option_copied result ≡ find tells_length headers.now }
{
    headers.iter().find(|header| tells_length(header))
}

/// Whether a byte is a digit.
fn is_digit(byte: u8) -> bool
    ensures { result ≡ is_digit byte }
{
    b'0' <= byte && byte <= b'9'
}

/// Whether all bytes are digits.
fn all_digits(value: &[u8]) -> bool
    ensures { result ≡ list_all is_digit value.now }
{
    value.iter().all(|&byte| is_digit(byte))
}

/// Whether a value is 1 to 18 digits.
fn is_length(value: &[u8]) -> bool
    ensures { result ≡ is_length value.now }
{
    1 <= value.len() && value.len() <= 18 && all_digits(value)
}

/// Whether a header tells no length, or tells it in these bytes.
fn agrees(value: &[u8], header: &Header) -> bool
    ensures { result ≡ agrees value.now header.now }
{
    !tells_length(header) || header.value.bytes() == value
}

/// Whether no header tells a length in other bytes.
fn all_agree(value: &[u8], headers: &[Header]) -> bool
    ensures { result ≡ list_all (agrees value.now) headers.now }
{
    headers.iter().all(|header| agrees(value, header))
}

/// The number that at most 18 digits write.
fn number_of(value: &[u8]) -> u64
    requires { is_length value.now ≡ true }
    ensures { result ≡ digits_value 10 value.now }
{
    let mut number = 0;
    for &digit in value {
        number = number * 10 + u64::from(digit - b'0');
    }
    number
}

/// The length that headers tell, or none where they tell no good one.
fn length_of(headers: &[Header]) -> Option<u64>
    ensures { result ≡ length_of headers.now }
{
    match first_length(headers) {
        None => Some(0),
        Some(first) => {
            let value = first.value.bytes();
            if is_length(value) && all_agree(value, headers) {
                Some(number_of(value))
            } else {
                None
            }
        }
    }
}

/// The length of the body, or the first cause against it. Takes no memory.
pub(crate) fn framing_of(headers: &[Header]) -> Result<u64, HeadFault>
    ensures { result ≡ framing_of headers.now }
{
    if has_coding(headers) {
        return Err(HeadFault::Coding);
    }
    match length_of(headers) {
        None => Err(HeadFault::BadLength),
        Some(length) if length <= BODY_MAX => Ok(length),
        Some(_) => Err(HeadFault::BodyTooLong),
    }
}
