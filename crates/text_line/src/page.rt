// A page that has one line.
ghost use Rattle.std.specs.Prelude.{[], ◌∷◌};
ghost use Rattle.text_line.specs.Line.{text_of};
ghost use Rattle.text_line.specs.Page.{LineAt};

use crate::Line;

// The line of a number, counted from 0, of a page that has one line.
pub fn only(line: Line, n: usize) -> Option<Line>
    ensures { LineAt (text_of line ∷ []) n result }
{
    (n == 0).then_some(line)
}
