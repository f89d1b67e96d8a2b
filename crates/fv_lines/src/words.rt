ghost use Rattle.std.specs.Prelude.{
  ◌≡◌,
  ◌∷◌,
  [],
  ◌+◌,
  ◌<◌,
  ℕ,
  length,
  take,
  drop,
  true,
  ◌≤◌,
  MatchOption,
};
ghost use Rattle.fv_lines.specs.Words.{words, is_blank, begins_blank, begins_word};

/// The first word of a line, and what stands behind it; None where no word is left.
pub fn next_word(line: &[u8]) -> Option<(&[u8], &[u8])>
    ensures words { MatchOption result (words line.now ≡ []) (λ x. words line.now ≡ x.0.now ∷ words x.1.now) }
    ensures shorter { MatchOption result (length line.now ≡ length line.now)
        (λ x. length x.1.now < length line.now) }
{
    let mut start = 0;
    while begins_blank(&line[start..]) {
        start += 1;
    }
    let rest = &line[start..];
    if rest.is_empty() {
        return None;
    }
    let end = word_end(rest);
    Some((&rest[..end], &rest[end..]))
}

/// A space or a tab.
pub fn is_blank(byte: u8) -> bool
    ensures { result ≡ is_blank byte }
{
    byte == b' ' || byte == b'\t'
}

fn begins_blank(bytes: &[u8]) -> bool
    ensures { result ≡ begins_blank bytes.now }
{
    match bytes {
        [] => false,
        [first, ..] => is_blank(*first),
    }
}

fn begins_word(bytes: &[u8]) -> bool
    ensures { result ≡ begins_word bytes.now }
{
    match bytes {
        [] => false,
        [first, ..] => !is_blank(*first),
    }
}

/// How long the word is that the bytes begin with.
fn word_end(bytes: &[u8]) -> usize
    requires { begins_word bytes.now ≡ true }
    ensures words { words bytes.now ≡ take result bytes.now ∷ words (drop result bytes.now) }
    ensures some { 0 < result }
    ensures within { result ≤ length bytes.now }
{
    let mut last = 0;
    while begins_word(&bytes[last + 1..]) {
        last += 1;
    }
    last + 1
}
