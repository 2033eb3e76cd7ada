ghost use Rattle.std.specs.Prelude.{⊤};
ghost use Rattle.outside.specs.declared.shared.queue.numbered.Numbered.{Numbered};

/// What each numbered link meets that is put into a queue, and so each that is taken out. No value of such a type need be made.
pub trait Condition<L> {
    ghost fits: { Numbered L → Type 0 };
}

/// The condition that any link meets.
pub struct AnyLink;

impl<L> Condition<L> for AnyLink {
    ghost fits = { λ item. ⊤ };
}
