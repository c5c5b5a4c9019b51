ghost use Rattle.std.specs.Prelude.{◌≡◌, ◌<◌, [], ◌∷◌, length, IfSome, OnSome, IfNone};
ghost use Rattle.ygg_base.specs.declared.token.Keyword.TheVariants as word;
ghost use Rattle.ygg_base.specs.declared.token.Symbol.TheVariants as sign;
ghost use Rattle.ygg_syntax.specs.Expressions.{keyword};
ghost use Rattle.ygg_syntax.specs.Files.{disk_word, disk_text};
ghost use Rattle.ygg_syntax.specs.Pending.{number, disk_kind, sign_of, word_of};
ghost use Rattle.ygg_read.specs.ExpressionSteps.{Reads, Goes, Stops};

use crate::Reader;
use crate::types::three;
use ygg_base::{DiskKind, Keyword, Symbol};
use ygg_syntax::tree::DiskText;

/// Reads the disk.
pub fn disk(reader: &mut Reader<'_>) -> Option<DiskText>
    ensures reads { IfSome result (λ d. Reads (disk_text d ∷ []) reader.old reader.new) }
    ensures goes { OnSome result (Goes (word_of word.Disk ∷ disk_kind ∷ number ∷ word_of word.Of ∷ number ∷ word_of word.Of ∷ number
        ∷ sign_of sign.Semicolon ∷ []) reader.old reader.new) }
    ensures refused { IfNone result (Stops (word_of word.Disk ∷ disk_kind ∷ number ∷ word_of word.Of ∷ number ∷ word_of word.Of ∷ number
        ∷ sign_of sign.Semicolon ∷ []) reader.old reader.new) }
{
    let Some(_) = reader.keyword(Keyword::Disk) else {
        return None;
    };
    let Some(kind) = kind(reader) else {
        return None;
    };
    let Some((rows, words, width)) = three(reader) else {
        return None;
    };
    let Some(_) = reader.symbol(Symbol::Semicolon) else {
        return None;
    };
    Some(DiskText {
        kind,
        rows,
        words,
        width,
    })
}

/// Reads the kind of the disk.
fn kind(reader: &mut Reader<'_>) -> Option<DiskKind>
    ensures reads { IfSome result (λ k. Reads (keyword (disk_word k) ∷ []) reader.old reader.new) }
    ensures goes { OnSome result (Goes (disk_kind ∷ []) reader.old reader.new) }
    ensures refused { IfNone result (Stops (disk_kind ∷ []) reader.old reader.new) }
{
    if let Some(_) = reader.keyword(Keyword::Sync) {
        return Some(DiskKind::Sync);
    }
    if let Some(_) = reader.keyword(Keyword::Async) {
        return Some(DiskKind::Async);
    }
    None
}
