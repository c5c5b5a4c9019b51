//! Bytes cut into pieces, and the words of a line.

ghost use Rattle.std.specs.Prelude.{◌≡◌, ◌<◌, length, IfSome, None, MatchOption};
ghost use Rattle.std.specs.Option.{option_copied};
ghost use Rattle.ygg_sched.specs.Words.{cut_at, after_front, is_word, words_in};

/// The bytes before the first such byte and, where there is one, those after it.
pub fn cut(bytes: &[u8], mark: u8) -> (&[u8], Option<&[u8]>)
    ensures cut { cut_at mark bytes.now ≡ (result.0.now, option_copied result.1) }
    ensures shorter { IfSome result.1 (λ rest. length rest.now < length bytes.now) }
{
    for (place, byte) in bytes.iter().enumerate() {
        if *byte == mark {
            return (&bytes[..place], Some(&bytes[place + 1..]));
        }
    }
    (bytes, None)
}

/// What follows these bytes, where others begin with them.
pub fn after_front<'a>(bytes: &'a [u8], front: &[u8]) -> Option<&'a [u8]>
    ensures { option_copied result ≡ after_front front.now bytes.now }
{
    if bytes.len() < front.len() {
        return None;
    }
    let (first, rest) = bytes.split_at(front.len());
    if front == first { Some(rest) } else { None }
}

/// Whether it is a word of a line: some bytes, and no space among them.
pub fn is_word(bytes: &[u8]) -> bool
    ensures { result ≡ is_word bytes.now }
{
    !bytes.is_empty() && !bytes.contains(&b' ')
}

/// The two words that these bytes are, with one space between them.
pub fn words_in(bytes: &[u8]) -> Option<(&[u8], &[u8])>
    ensures { MatchOption result (words_in bytes.now ≡ None) (λ words. words_in bytes.now ≡ Some (words.0.now, words.1.now)) }
{
    let (first, rest) = cut(bytes, b' ');
    match rest {
        Some(second) => {
            if is_word(first) && is_word(second) {
                Some((first, second))
            } else {
                None
            }
        }
        None => None,
    }
}
