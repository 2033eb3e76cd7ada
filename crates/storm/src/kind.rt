//! What the requests of a block are. All requests of a block are of one kind, and the kinds take turns.

ghost use Rattle.std.specs.Prelude.{◌≡◌};
ghost use Rattle.storm.specs.Places.{kind_of};

/// The number of sessions, and of the requests of a block: each session sends one of them.
pub const BLOCK: u32 = 16;

/// What a request is, by the block in which it comes.
#[derive(Clone, Copy, PartialEq, Eq)]
pub enum Kind {
    /// A produce that waits until the follower has its batch.
    AwaitedProduce,
    /// A fetch of the follower.
    FollowerFetch,
    /// A produce that is answered at once.
    PromptProduce,
    /// A fetch of a consumer.
    ConsumerFetch,
}

/// The kind of the requests of a block.
pub(crate) fn kind_of(block: u32) -> Kind
    ensures { result ≡ kind_of block }
{
    match block % 4 {
        0 => Kind::AwaitedProduce,
        1 => Kind::FollowerFetch,
        2 => Kind::PromptProduce,
        _ => Kind::ConsumerFetch,
    }
}
