// The parts of a payload.
ghost use Rattle.std.specs.Prelude.{◌≡◌, ◌==◌, position};
ghost use Rattle.gdb_protocol.specs.Words as spec;

fn index_of(text: &[u8], byte: u8) -> Option<usize>
    ensures { result ≡ position (λ c. c == byte) text.now }
{
    text.iter().position(|c| *c == byte)
}

fn is_separator(c: u8) -> bool
    ensures { result ≡ spec.is_separator c }
{
    c == b':' || c == b',' || c == b';'
}

fn index_of_separator(text: &[u8]) -> Option<usize>
    ensures { result ≡ position spec.is_separator text.now }
{
    text.iter().position(|c| is_separator(*c))
}

/// What stands before the first byte of this kind, and after it: all and nothing where there is none.
pub(crate) fn cut(text: &[u8], at: u8) -> (&[u8], &[u8])
    ensures before { result.0.now ≡ spec.before (λ c. c == at) text.now }
    ensures after { result.1.now ≡ spec.after (λ c. c == at) text.now }
{
    match index_of(text, at) {
        Some(i) => (&text[..i], &text[i + 1..]),
        None => (text, &[]),
    }
}

/// The same for the first separator.
pub(crate) fn cut_name(text: &[u8]) -> (&[u8], &[u8])
    ensures before { result.0.now ≡ spec.before spec.is_separator text.now }
    ensures after { result.1.now ≡ spec.after spec.is_separator text.now }
{
    match index_of_separator(text) {
        Some(i) => (&text[..i], &text[i + 1..]),
        None => (text, &[]),
    }
}
