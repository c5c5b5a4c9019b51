ghost use Rattle.std.specs.Prelude.{◌≡◌, IfOk};
ghost use Rattle.ygg_print.specs.Canonical.{IsReadAgain, canonical};

use crate::layers::marks_of;
use crate::layout::lay_out;
use std::alloc::Global;
use ygg_base::Text;
use ygg_list::NoMemory;
use ygg_syntax::tree::File;

/// The canonical text of a layer file. Where some tokens of the language derive the file, the tokens of the text derive it
/// too but for places, and no other file. Its only error is out of memory.
pub fn print(alloc: Global, file: &File) -> Result<Text, NoMemory>
    ensures text { IfOk result (λ text. text ≡ canonical file.now) }
    ensures again { IfOk result (λ text. IsReadAgain text file.now) }
{
    let marks = marks_of(alloc, file)?;
    lay_out(alloc, marks.as_slice())
}
