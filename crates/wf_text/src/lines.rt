//! Lines, and the words of a line.
ghost use Rattle.std.specs.Prelude.{◌≡◌, ◌≢◌, ◌<◌, ◌≤◌, ◌∷◌, [], length, take, drop};
ghost use Rattle.wf_text.specs.Lines.{lines_of, before, from, unspaced};

// Where the first such byte stands, or the end.
#[tactic(auto, using(crate::proofs::LineLemmas::search_steps))]
fn place_of(bytes: &[u8], mark: u8) -> usize
    ensures within { result ≤ length bytes.now }
    ensures front { before mark bytes.now ≡ take result bytes.now }
    ensures rest { from mark bytes.now ≡ drop result bytes.now }
{
    for (place, byte) in bytes.iter().enumerate() {
        if *byte == mark {
            return place;
        }
    }
    bytes.len()
}

/// The first line, without its newline, and what stands behind it.
#[tactic(auto, using(crate::proofs::LineLemmas::line_at_place))]
pub fn split_line(bytes: &[u8]) -> (&[u8], &[u8])
    requires { bytes.now ≢ [] }
    ensures lines { lines_of bytes.now ≡ result.0.now ∷ lines_of result.1.now }
    ensures shorter { length result.1.now < length bytes.now }
{
    let end = place_of(bytes, b'\n');
    if end == bytes.len() {
        return (bytes, &[]);
    }
    (&bytes[..end], &bytes[end + 1..])
}

/// What stands before the first space, and what stands from it on.
pub fn split_word(bytes: &[u8]) -> (&[u8], &[u8])
    ensures word { result.0.now ≡ before 32 bytes.now }
    ensures rest { result.1.now ≡ from 32 bytes.now }
{
    bytes.split_at(place_of(bytes, b' '))
}

/// What stands behind the spaces at the front.
#[tactic(auto, using(crate::proofs::LineLemmas::space_steps))]
pub fn without_spaces(bytes: &[u8]) -> &[u8]
    ensures { result.now ≡ unspaced bytes.now }
{
    for (place, byte) in bytes.iter().enumerate() {
        if *byte != b' ' {
            return &bytes[place..];
        }
    }
    &[]
}
