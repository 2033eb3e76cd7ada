//! Laws of frames, layouts and requests. They do nothing.
ghost use Rattle.std.specs.Prelude.{◌≡◌, ◌≢◌, ◌⊎◌, ◌++◌, List, ℕ};
ghost use Rattle.kbytes.specs.Octets.{IsBytes};
ghost use Rattle.kbytes.specs.Field.{Field, fields};
ghost use Rattle.kwire.specs.Frames.{AreFramesOf};
ghost use Rattle.kwire.specs.Layouts.{Layout, AreOf, IsFirstFault};
ghost use Rattle.kwire.specs.IsRequest.{IsRequest};
ghost use Rattle.kwire.specs.Refusal.{IsRefused};
ghost use Rattle.kwire.specs.declared.frame.WireFault.{WireFault};
ghost use Rattle.kwire.specs.declared.request.Request.{Request};

/// Law: a stream is cut into whole frames and a rest in only one way.
pub fn frames_are_one()
    ensures { (stream : List ℕ) (bodies others : List (List ℕ)) (rest more : List ℕ) → AreFramesOf stream bodies rest
        → AreFramesOf stream others more → (bodies ≡ others) × (rest ≡ more) }
{}

/// Law: bytes begin with the fields of a layout in only one way, or have one first fault, and not both.
pub fn layouts_are_one()
    ensures fields { (layout : Layout) (fs gs : List Field) (rest more : List ℕ) → AreOf layout fs → AreOf layout gs
        → fields fs ++ rest ≡ fields gs ++ more → (fs ≡ gs) × (rest ≡ more) }
    ensures fault { (layout : Layout) (bytes : List ℕ) (v w : WireFault) → IsFirstFault layout bytes v
        → IsFirstFault layout bytes w → v ≡ w }
    ensures not_both { (layout : Layout) (fs : List Field) (rest : List ℕ) (why : WireFault) → AreOf layout fs
        → IsFirstFault layout (fields fs ++ rest) why → ⊥ }
    ensures either { (layout : Layout) (bytes : List ℕ) → IsBytes bytes
        → ((fs : List Field) × (rest : List ℕ) × AreOf layout fs × (bytes ≡ fields fs ++ rest))
        ⊎ ((why : WireFault) × IsFirstFault layout bytes why) }
{}

/// Law: a body is exactly one request, or is refused for exactly one cause, and not both.
pub fn requests_are_one()
    ensures request { (body : List ℕ) (r s : Request) → IsRequest body r → IsRequest body s → r ≡ s }
    ensures refusal { (body : List ℕ) (v w : WireFault) → IsRefused body v → IsRefused body w → v ≡ w }
    ensures not_both { (body : List ℕ) (r : Request) (w : WireFault) → IsRequest body r → IsRefused body w → ⊥ }
    ensures either { (body : List ℕ) → IsBytes body
        → ((r : Request) × IsRequest body r) ⊎ ((w : WireFault) × IsRefused body w) }
{}

/// Law: the frames of a stream don't depend on the pieces in which it came. The frames of a first piece, and then those of
/// what was left of it with the bytes that came after, are the frames of the whole.
pub fn frames_in_pieces()
    ensures { (stream piece : List ℕ) (bodies more : List (List ℕ)) (rest last : List ℕ) → AreFramesOf stream bodies rest
        → AreFramesOf (rest ++ piece) more last → AreFramesOf (stream ++ piece) (bodies ++ more) last }
{}
