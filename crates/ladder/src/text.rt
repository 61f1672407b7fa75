ghost use Rattle.std.specs.Prelude.{◌≡◌, ◌≤◌, IfOk};
ghost use Rattle.document_forms.specs.Writing.{written};
ghost use Rattle.wpds_base.specs.Limits.{most_rungs};
ghost use Rattle.ladder.specs.Ladders.{ladder_document as document_of};

use crate::document::ladder_document;
use document_writer::write_system;
use std::alloc::Global;
use wpds_base::OutOfMemory;
use wpds_port::Text;

/// The text of the ladder of so many rungs. It is refused only when out of memory.
///
/// By the law [`ladders_are_documents`](crate::ladders_are_documents) it is read back as [`ladder_document`].
pub fn ladder(alloc: Global, rungs: u32) -> Result<Text, OutOfMemory>
    requires { rungs ≤ most_rungs }
    ensures { IfOk result (λ text. text ≡ written (document_of rungs)) }
{
    let document = ladder_document(alloc, rungs)?;
    write_system(alloc, &document)
}
