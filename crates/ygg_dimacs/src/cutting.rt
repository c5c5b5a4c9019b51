//! Bytes cut at line feeds and at blanks.

ghost use Rattle.std.specs.Prelude.{◌≡◌, ◌+◌, [], ◌∷◌, length, MatchOption};
ghost use Rattle.ygg_base.specs.Lexing.{is_blank};
ghost use Rattle.ygg_dimacs.specs.Lines.{pieces_of};
ghost use Rattle.ygg_dimacs.specs.Words.{pieces_of as words_in};

/// The bytes before the first line feed and, where there is one, those after it.
#[tactic(auto, using(crate::proofs::Splitting::never))]
pub fn cut_line(bytes: &[u8]) -> (&[u8], Option<&[u8]>)
    ensures pieces { MatchOption result.1 (pieces_of bytes.now ≡ result.0.now ∷ []) (λ rest. pieces_of bytes.now ≡ result.0.now ∷ pieces_of rest.now) }
    ensures whole { MatchOption result.1 (length result.0.now ≡ length bytes.now) (λ rest. length result.0.now + 1 + length rest.now ≡ length bytes.now) }
{
    for (place, byte) in bytes.iter().enumerate() {
        if *byte == b'\n' {
            return (&bytes[..place], Some(&bytes[place + 1..]));
        }
    }
    (bytes, None)
}

/// Whether the byte is a space, a tab, a carriage return or a line feed.
pub fn is_blank(byte: u8) -> bool
    ensures { result ≡ is_blank byte }
{
    byte == b' ' || byte == b'\t' || byte == b'\r' || byte == b'\n'
}

/// The bytes before the first blank and, where there is one, those after it.
#[tactic(auto, using(crate::proofs::Splitting::never))]
pub fn cut_word(bytes: &[u8]) -> (&[u8], Option<&[u8]>)
    ensures pieces { MatchOption result.1 (words_in bytes.now ≡ result.0.now ∷ []) (λ rest. words_in bytes.now ≡ result.0.now ∷ words_in rest.now) }
    ensures whole { MatchOption result.1 (length result.0.now ≡ length bytes.now) (λ rest. length result.0.now + 1 + length rest.now ≡ length bytes.now) }
{
    for (place, byte) in bytes.iter().enumerate() {
        if is_blank(*byte) {
            return (&bytes[..place], Some(&bytes[place + 1..]));
        }
    }
    (bytes, None)
}
