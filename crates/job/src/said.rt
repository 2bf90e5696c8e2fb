// What all lines of a job say.
ghost use Rattle.std.specs.Prelude.{◌≡◌, map, IfOk};
ghost use Rattle.text_pieces.specs.Pieces.{lines};
ghost use Rattle.job_text.specs.Lines.{job_line};

use job_text::line::JobLine;
use std::alloc::{AllocError, Global};
use text_pieces::pieces::Lines;

pub(crate) fn said_lines(heap: Global, text: &[u8]) -> Result<Vec<Option<JobLine>>, AllocError>
    ensures { IfOk result (λ v. v.items ≡ map job_line (lines text.now)) }
{
    Lines::new(text)
        .map(|line| JobLine::parse(line))
        .collect(heap)
}
