//! Which lines may come next, from the lines so far. `reading` asks it before it takes a line.

use crate::line::{Line, MOST_SESSIONS};

/// What is remembered of the lines so far.
#[derive(Drop)]
pub struct Order {
    /// The last line was `end`.
    ended: bool,
    /// A line other than `topic` came.
    begun: bool,
    moment: u64,
    /// The sessions whose input ended.
    closed: [bool; MOST_SESSIONS as usize],
}

impl Order {
    ghost use Rattle.std.specs.Prelude.{◌≡◌, ◌↔◌, List as Items, [], ◌∷◌, ◌++◌, IsTrue};
    ghost use Rattle.trace_file.specs.declared.line.Line.{Line};
    ghost use Rattle.trace_file.specs.LineFaults.{MayStand};
    ghost use Rattle.trace_file.specs.Sees.{Sees, NamesOne};

    pub fn new() -> Order
        ensures { Sees result [] }
    {
        Order {
            ended: false,
            begun: false,
            moment: 0,
            closed: [false; MOST_SESSIONS as usize],
        }
    }

    pub fn is_ended(&self) -> bool
        ensures { result ≡ self.now.ended }
    {
        self.ended
    }

    /// Whether the line may come next.
    pub fn allows(&self, only_topics: bool, line: &Line) -> bool
        requires { NamesOne line.now }
        ensures { (lines : Items Line) → Sees self.now lines → IsTrue result ↔ MayStand only_topics lines line.now }
    {
        if self.ended {
            return false;
        }
        match line {
            Line::Topic { .. } => !self.begun,
            Line::Feed { session, .. } | Line::Shut { session } => {
                !only_topics && !self.closed[*session as usize]
            }
            Line::Clock { t } => !only_topics && self.moment <= *t,
            Line::End => true,
        }
    }

    /// Remembers a line that came.
    pub fn pass(&mut self, line: &Line)
        requires { NamesOne line.now }
        ensures { (lines : Items Line) → Sees self.old lines → Sees self.new (lines ++ line.now ∷ []) }
    {
        match line {
            Line::Topic { .. } => {}
            Line::Feed { .. } => {
                self.begun = true;
            }
            Line::Shut { session } => {
                self.begun = true;
                self.closed[*session as usize] = true;
            }
            Line::Clock { t } => {
                self.begun = true;
                self.moment = self.moment.max(*t);
            }
            Line::End => {
                self.begun = true;
                self.ended = true;
            }
        }
    }
}
