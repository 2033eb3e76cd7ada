//! Laws of traces and their first bad lines. They do nothing.

ghost use Rattle.std.specs.Prelude.{◌≡◌, ◌∷◌, ◌++◌, List, ℕ, Bool};
ghost use Rattle.trace_file.specs.declared.line.Line.{Line};
ghost use Rattle.trace_file.specs.declared.line.LineFault.{LineFault};
ghost use Rattle.trace_file.specs.FirstBad.{IsTraceRead, IsFirstBad};
ghost use Rattle.trace_file.specs.IsLine.{IsLine};
ghost use Rattle.trace_file.specs.PrintedLine.{text_of, IsWritable};
ghost use Rattle.trace_file.specs.Trace.{pieces_of};

/// Law: a trace has no first bad line.
pub fn no_bad_line()
    ensures { (text : List ℕ) (only_topics : Bool) (lines : List Line) (fault : LineFault)
        → IsTraceRead text only_topics lines → IsFirstBad text only_topics fault → ⊥ }
{}

/// Law: a text has at most one first bad line.
pub fn one_first_bad_line()
    ensures { (text : List ℕ) (only_topics : Bool) (a b : LineFault)
        → IsFirstBad text only_topics a → IsFirstBad text only_topics b → a ≡ b }
{}

/// Law: the text of a line is read back as that line, whatever comes after it.
pub fn read_back()
    ensures { (line : Line) (rest : List ℕ) → IsWritable line
        → (piece : List ℕ) × IsLine piece line × (pieces_of (text_of line ++ rest) ≡ piece ∷ pieces_of rest) }
{}
