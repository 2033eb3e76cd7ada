//! Laws of a follower. They do nothing.
ghost use Rattle.std.specs.Prelude.{◌≡◌, ◌≢◌, ◌<◌, ◌^◌, ◌++◌, ℕ, ℤ, pos, List, [], length};
ghost use Rattle.std.specs.List.{AllByRecursion, flat_map};
ghost use Rattle.audit.specs.declared.account.Account.{Account as TheAccount};
ghost use Rattle.audit.specs.declared.account.Transcript.{Transcript as TheTranscript};
ghost use Rattle.kwire.specs.Frames.{IsFrameBody, framed};
ghost use Rattle.kwire.specs.declared.codes.TheConstants.{OFFSET_OUT_OF_RANGE, REPLICA_NOT_AVAILABLE};
ghost use Rattle.follower.specs.Asking.{asked_frame};
ghost use Rattle.follower.specs.Copies.{Copy as TheCopy};
ghost use Rattle.follower.specs.CopyOf.{IsCopyOf, IsRunOf};
ghost use Rattle.follower.specs.Course.{HasFollowed, HasGone};
ghost use Rattle.follower.specs.Flows.{LinkView as TheLinkView};
ghost use Rattle.follower.specs.FromLawful.{IsFollowing, IsPrefixIn, MayBeRefused};
ghost use Rattle.follower.specs.Logs.{FollowOn};
ghost use Rattle.follower.specs.Verdict.{HasTaken, IsRefused};
ghost use Rattle.follower.specs.Worked.{stranger, stranger_session, turned_away};
ghost use Rattle.follower.specs.declared.fault.FollowEnd.{FollowEnd as TheEnd};
ghost use Rattle.follower.specs.declared.fault.FollowEnd.TheVariants.{Take};
ghost use Rattle.follower.specs.declared.fault.TakeFault.{TakeFault as TheFault};
ghost use Rattle.follower.specs.declared.fault.TakeFault.TheVariants.{Refused};

/// Law: a reply is taken in one way, or refused for one cause, and not both.
pub fn verdicts_are_one()
    ensures taken { (copy : TheCopy) (correlation : ℤ) (body : List ℕ) (count others : ℕ) (new other : TheCopy)
        → HasTaken copy correlation body count new → HasTaken copy correlation body others other → (count ≡ others) × (new ≡ other) }
    ensures refused { (copy : TheCopy) (correlation : ℤ) (body : List ℕ) (f g : TheFault) → IsRefused copy correlation body f
        → IsRefused copy correlation body g → f ≡ g }
    ensures not_both { (copy : TheCopy) (correlation : ℤ) (body : List ℕ) (count : ℕ) (new : TheCopy) (f : TheFault)
        → HasTaken copy correlation body count new → IsRefused copy correlation body f → ⊥ }
{}

/// Law: a copy of a log, the first so many of its batches, that takes a reply whose records are some of the log's batches one after the other,
/// from anywhere among them, is then a copy of the log again: each batch's base offset leaves one place for it. So whatever replies are lost,
/// come twice or come late, a copy is a prefix of the log.
pub fn copies_stay_prefixes()
    ensures { (batches : List (List ℕ)) (end : ℕ) (copy new : TheCopy) (correlation : ℤ) (body : List ℕ) (count : ℕ)
        → FollowOn 0 batches end → IsCopyOf batches copy → (taken : HasTaken copy correlation body count new)
        → IsRunOf batches taken.brings.told.records → IsCopyOf batches new }
{}

/// Law: the bodies that a follower takes decide its requests and its copy.
pub fn rounds_are_one()
    ensures { (round : ℕ) (old new other : TheCopy) (bodies : List (List ℕ)) (asked frames : List ℕ) → HasGone round old bodies asked new
        → HasGone round old bodies frames other → (asked ≡ frames) × (new ≡ other) }
{}

/// Law: a follower of a broker whose account is lawful copies the partition's log. After any rounds, and wherever the bytes are cut off, the copy is
/// a prefix of that log, if it was one at first. A reply is refused only with the codes for a copy that is longer than the log was then, for an
/// unknown partition and for an unknown replica, or because the copy is full; and where it was empty at first, it is never too long.
pub fn lawful_logs_are_copied()
    ensures prefix { (account : TheAccount) (session : TheTranscript) (old new : TheCopy) (bodies : List (List ℕ)) (asked rest more : List ℕ)
        → AllByRecursion IsFrameBody bodies → HasGone 0 old bodies asked new
        → IsFollowing account session old (flat_map framed bodies ++ rest) (asked ++ more) → IsPrefixIn account new }
    ensures refused { (account : TheAccount) (session : TheTranscript) (old new : TheCopy) (bodies : List (List ℕ)) (asked body rest more : List ℕ)
        (fault : TheFault) → AllByRecursion IsFrameBody bodies → HasGone 0 old bodies asked new → length bodies < 2 ^ 31 → IsFrameBody body
        → IsFollowing account session old (flat_map framed bodies ++ (framed body ++ rest)) (asked ++ (asked_frame new (pos (length bodies)) ++ more))
        → IsRefused new (pos (length bodies)) body fault → MayBeRefused fault }
    ensures empty { (account : TheAccount) (session : TheTranscript) (old new : TheCopy) (bodies : List (List ℕ)) (asked body rest more : List ℕ)
        → AllByRecursion IsFrameBody bodies → HasGone 0 old bodies asked new → length bodies < 2 ^ 31 → IsFrameBody body
        → IsFollowing account session old (flat_map framed bodies ++ (framed body ++ rest)) (asked ++ (asked_frame new (pos (length bodies)) ++ more))
        → old.log ≡ [] → IsRefused new (pos (length bodies)) body (Refused OFFSET_OUT_OF_RANGE) → ⊥ }
{}

/// Law: the same of all that `follow` does, however it ends.
pub fn lawful_leaders_are_followed()
    ensures prefix { (account : TheAccount) (session : TheTranscript) (rounds : ℕ) (old new : TheCopy) (end : TheEnd) (before now : TheLinkView)
        → (did : HasFollowed rounds old new end before now) → IsFollowing account session old did.input did.output → IsPrefixIn account new }
    ensures refused { (account : TheAccount) (session : TheTranscript) (rounds : ℕ) (old new : TheCopy) (fault : TheFault) (before now : TheLinkView)
        → (did : HasFollowed rounds old new (Take fault) before now) → rounds < 2 ^ 31 → IsFollowing account session old did.input did.output
        → MayBeRefused fault }
    ensures empty { (account : TheAccount) (session : TheTranscript) (rounds : ℕ) (old new : TheCopy) (fault : TheFault) (before now : TheLinkView)
        → (did : HasFollowed rounds old new (Take fault) before now) → rounds < 2 ^ 31 → IsFollowing account session old did.input did.output
        → old.log ≡ [] → fault ≢ Refused OFFSET_OUT_OF_RANGE }
{}

/// Law: of a worked session. A new replica, whose number its leader doesn't know, follows for a round: the account is lawful, and the reply is
/// refused with the code for that.
pub fn worked_session()
    ensures { (body : List ℕ) × IsFollowing turned_away stranger_session stranger (framed body) (asked_frame stranger (pos 0))
        × IsRefused stranger (pos 0) body (Refused REPLICA_NOT_AVAILABLE) }
{}
