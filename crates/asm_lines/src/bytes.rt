//! Bytes of a line: blanks, names, and what is left without a comment.
ghost use Rattle.std.specs.Prelude.{◌≡◌, ◌≤◌, ◌<◌, IfSome, length, position, not, false};
ghost use Rattle.std.specs.List.{list_all};
ghost use Rattle.asm_lines.specs.Bytes.{is_blank, is_digit, is_name_start, is_name_byte, name_len, is_name, place_of, trimmed_start, trimmed_end, trimmed, code_from, code_of};

// A space or a tab.
pub fn is_blank(byte: u8) -> bool
    ensures { result ≡ is_blank byte }
{
    byte == b' ' || byte == b'\t'
}

pub fn is_digit(byte: u8) -> bool
    ensures { result ≡ is_digit byte }
{
    b'0' <= byte && byte <= b'9'
}

// A letter, `_`, `.` or `$`.
fn is_name_start(byte: u8) -> bool
    ensures { result ≡ is_name_start byte }
{
    (b'A' <= byte && byte <= b'Z')
        || (b'a' <= byte && byte <= b'z')
        || byte == b'_'
        || byte == b'.'
        || byte == b'$'
}

fn is_name_byte(byte: u8) -> bool
    ensures { result ≡ is_name_byte byte }
{
    is_name_start(byte) || is_digit(byte)
}

// The place of a byte.
pub fn place_of(byte: u8, text: &[u8]) -> Option<usize>
    ensures value { result ≡ place_of byte text.now }
    ensures bound { IfSome result (λ at. at < length text.now) }
{
    text.iter().position(|b| *b == byte)
}

// The place of the first byte that belongs to no name.
fn first_other(text: &[u8]) -> Option<usize>
    ensures value { result ≡ position (λ b. not (is_name_byte b)) text.now }
    ensures bound { IfSome result (λ at. at < length text.now) }
{
    text.iter().position(|b| !is_name_byte(*b))
}

// The place of the first byte that is no blank.
fn first_nonblank(text: &[u8]) -> Option<usize>
    ensures value { result ≡ position (λ b. not (is_blank b)) text.now }
    ensures bound { IfSome result (λ at. at < length text.now) }
{
    text.iter().position(|b| !is_blank(*b))
}

// The place of the first blank.
pub fn first_blank(text: &[u8]) -> Option<usize>
    ensures value { result ≡ position is_blank text.now }
    ensures bound { IfSome result (λ at. at < length text.now) }
{
    text.iter().position(|b| is_blank(*b))
}

// How many bytes of a name stand at the front.
pub fn name_len(text: &[u8]) -> usize
    ensures value { result ≡ name_len text.now }
    ensures bound { result ≤ length text.now }
{
    match first_other(text) {
        Some(at) => at,
        None => text.len(),
    }
}

fn are_name_bytes(text: &[u8]) -> bool
    ensures { result ≡ list_all is_name_byte text.now }
{
    text.iter().all(|b| is_name_byte(*b))
}

// A name: bytes of names, the first no digit.
pub fn is_name(text: &[u8]) -> bool
    ensures { result ≡ is_name text.now }
{
    text.len() > 0 && is_name_start(text[0]) && are_name_bytes(text)
}

// The text without the blanks at the front.
pub fn trimmed_start(text: &[u8]) -> &[u8]
    ensures { result.now ≡ trimmed_start text.now }
{
    match first_nonblank(text) {
        Some(at) => &text[at..],
        None => &text[text.len()..],
    }
}

// The text without the blanks at the end.
fn trimmed_end(text: &[u8]) -> &[u8]
    ensures { result.now ≡ trimmed_end text.now }
{
    let mut n = text.len();
    while n > 0 && is_blank(text[n - 1]) {
        n -= 1;
    }
    &text[..n]
}

// The text without the blanks at its ends.
pub fn trimmed(text: &[u8]) -> &[u8]
    ensures { result.now ≡ trimmed text.now }
{
    trimmed_end(trimmed_start(text))
}

// The line without its comment.
fn uncommented(line: &[u8]) -> &[u8]
    ensures { result.now ≡ code_from false line.now }
{
    let mut quoted = false;
    for (i, byte) in line.iter().enumerate() {
        if *byte == b'#' && !quoted {
            return &line[..i];
        }
        if *byte == b'"' {
            quoted = !quoted;
        }
    }
    line
}

// The line without its comment and the blanks at its ends.
pub fn code_of(line: &[u8]) -> &[u8]
    ensures { result.now ≡ code_of line.now }
{
    trimmed(uncommented(line))
}
