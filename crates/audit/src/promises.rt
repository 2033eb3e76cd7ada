//! Laws of accounts. They do nothing.
ghost use Rattle.std.specs.Prelude.{◌≡◌, ◌≢◌, ◌<◌, ◌≤◌, ◌^◌, ◌⊎◌, ◌∷◌, [], codes, length, map, negsuc, pos, true, All, List, None, Some, ℕ};
ghost use Rattle.std.specs.List.{AllByRecursion, AllZip};
ghost use Rattle.kbytes.specs.Field.{fields};
ghost use Rattle.kbatch.specs.Batch.{IsBatch};
ghost use Rattle.kbatch.specs.declared.record.Record.{Record};
ghost use Rattle.audit.specs.Fits.{HasReplies, IsReplyOf, is_answered, sent};
ghost use Rattle.kwire.specs.Configuration.{Configuration, partitions_of};
ghost use Rattle.kanswer.specs.Decisions.{Decides, Decision};
ghost use Rattle.kanswer.specs.LogReadings.{IsCarriable};
ghost use Rattle.kanswer.specs.Results.{AreResults};
ghost use Rattle.kwire.specs.declared.request.Request.{Request};
ghost use Rattle.kwire.specs.declared.config.TheConstants.{MOST_PARTITIONS};
ghost use Rattle.partlog.specs.Added.{log_end_of};
ghost use Rattle.partlog.specs.declared.part_log.TheConstants.{MOST_LOG_BYTES};
ghost use Rattle.kwire.specs.Frames.{AreFramesOf, framed, IsFrameBody};
ghost use Rattle.audit.specs.LawfulCall.{IsClockLook, IsLawfulCall, IsLook, IsStep, Step};
ghost use Rattle.audit.specs.IsLawful.{HasEntries, IsLawful};
ghost use Rattle.kwire.specs.IsRequest.{IsRequest, request_fields};
ghost use Rattle.audit.specs.Printed.{IsPrintOf, link_line, session_text, storm_summary_of, summary_of};
ghost use Rattle.audit.specs.RunOf.{IsRunOf};
ghost use Rattle.audit.specs.ServePrint.{IsServePrint};
ghost use Rattle.kwire.specs.Spelling.{spelling};
ghost use Rattle.audit.specs.Worked.{astray_call, back_at, closed_lines, closed_run, cut_as_satisfied, cut_call, cut_unwon, expired_call, fetch_both, fetch_now, fetch_one, filled, leave_at, left_alone, left_and_back, lines_of, other_leaves, parked_call, produce_call, produce_of, produced_reply, read_call, replicated, replicated_call, reply_of, satisfied_call, swapped_print, three_waits, told_later, two_links};
ghost use Rattle.audit.specs.declared.account.Account.{Account as TheAccount};
ghost use Rattle.audit.specs.declared.account.Call.{Call as TheCall};
ghost use Rattle.audit.specs.declared.account.SessionEnd.TheVariants.{Closed, NoMemory};
ghost use Rattle.kwire.specs.declared.reply.Reply.{Reply};

/// Law: a call has at most one reply: none where it isn't answered, and one where it is answered and lawful.
pub fn one_reply()
    ensures once { (account : TheAccount) (call : TheCall) (reply other : Reply) → IsReplyOf account call reply
        → IsReplyOf account call other → reply ≡ other }
    ensures answered { (account : TheAccount) (call : TheCall) (reply : Reply) → IsReplyOf account call reply
        → is_answered call.how ≡ true }
    ensures there { (account : TheAccount) (call : TheCall) → IsLawfulCall account call → is_answered call.how ≡ true
        → (reply : Reply) × IsReplyOf account call reply }
{}

/// Law: a lawful account has a print, and no account has two. What a session was sent is one sequence of bytes: the frames of
/// its replies, one after the other, and nothing else.
pub fn one_print()
    ensures there { (account : TheAccount) → IsLawful account → (text : List ℕ) × IsPrintOf account text }
    ensures once { (account : TheAccount) (text other : List ℕ) → IsPrintOf account text → IsPrintOf account other → text ≡ other }
    ensures bytes { (account : TheAccount) (calls : List TheCall) (replies others : List Reply) → HasReplies account calls replies
        → HasReplies account calls others → sent replies ≡ sent others }
    ensures frames { (replies : List Reply) (bodies : List (List ℕ)) → map spelling replies ≡ map framed bodies
        → AllByRecursion IsFrameBody bodies → AreFramesOf (sent replies) bodies [] }
{}

/// Law: no account has two prints of its links.
pub fn one_serve_print()
    ensures { (account : TheAccount) (text other : List ℕ) → IsServePrint account text → IsServePrint account other → text ≡ other }
{}

/// Law: no log of a lawful account has more records than a log may have bytes. Each append was made by a lawful call, which
/// found room for its batch, and a batch has fewer records than bytes.
pub fn lawful_logs_are_bounded()
    ensures { (account : TheAccount) → IsLawful account → partitions_of account.config.topics ≤ MOST_PARTITIONS
        → All (λ part. log_end_of part.events ≤ MOST_LOG_BYTES) account.parts }
{}

/// Law: the last entries that a lawful call names are there: each is a look at its partition or at the clock.
pub fn looks_stand()
    ensures { (account : TheAccount) (call : TheCall) → IsLawfulCall account call
        → AllByRecursion (λ point. IsLook account point.part point ⊎ IsClockLook account point) call.finish }
{}

/// Law: worked calls that waited. One expired, one is parked, two were cut off after the first of their looks, a fetch was
/// satisfied by a record that came, and a produce by its follower's fetch. Not lawful are a last entry that isn't there,
/// looks of a call that nobody won, a parked call that is overdue, and a satisfied call whose look shows too little.
pub fn worked_calls()
    ensures expired { (one both : List ℕ) → IsRequest one fetch_one → IsLawfulCall (three_waits one both) (expired_call one) }
    ensures parked { (one both : List ℕ) → IsRequest one fetch_one → IsLawfulCall (three_waits one both) (parked_call one) }
    ensures cut { (one both : List ℕ) → IsRequest both fetch_both → IsLawfulCall (three_waits one both) (cut_call both) }
    ensures satisfied { (one : List ℕ) → IsRequest one fetch_one → IsLawfulCall filled (satisfied_call one 3) }
    ensures satisfied_cut { (both : List ℕ) → IsRequest both fetch_both → IsLawfulCall filled (cut_as_satisfied both) }
    ensures replicated { (plain batch all : List ℕ) (one : Record) → IsBatch batch (one ∷ []) → IsRequest all (produce_of (negsuc 0) batch)
        → IsLawfulCall (replicated plain batch) (replicated_call all 4) }
    ensures astray { (one both : List ℕ) → IsLawfulCall (three_waits one both) (astray_call both) → ⊥ }
    ensures overdue { (one both : List ℕ) → IsRequest one fetch_one → IsLawfulCall (told_later one both) (parked_call one) → ⊥ }
    ensures unwon { (both : List ℕ) → IsLawfulCall filled (cut_unwon both) → ⊥ }
    ensures alone { (plain batch all : List ℕ) (one : Record) → IsBatch batch (one ∷ []) → IsRequest all (produce_of (negsuc 0) batch)
        → IsLawfulCall (replicated plain batch) (replicated_call all 2) → ⊥ }
    ensures early { (one : List ℕ) → IsRequest one fetch_one → IsLawfulCall filled (satisfied_call one 1) → ⊥ }
{}

/// Law: the replies to worked calls. Of two reads of a partition, before a record came and after it, neither has the other's
/// reply; nor of two produces to one partition. That is so for a list of replies, for the bytes sent, and for a print.
pub fn worked_replies()
    ensures before { (now : List ℕ) → IsRequest now fetch_now → IsReplyOf filled (read_call now 0) (reply_of 0 []) }
    ensures behind { (now : List ℕ) → IsRequest now fetch_now → IsReplyOf filled (read_call now 3) (reply_of 1 (9 ∷ [])) }
    ensures swapped { (now : List ℕ) → IsRequest now fetch_now
        → HasReplies filled (read_call now 0 ∷ read_call now 3 ∷ []) (reply_of 1 (9 ∷ []) ∷ reply_of 0 [] ∷ []) → ⊥ }
    ensures first { (plain batch : List ℕ) (one : Record) → IsBatch batch (one ∷ []) → IsRequest plain (produce_of (pos 1) batch)
        → IsReplyOf (replicated plain batch) (produce_call plain 0) (produced_reply 0) }
    ensures second { (plain batch : List ℕ) (one : Record) → IsBatch batch (one ∷ []) → IsRequest plain (produce_of (pos 1) batch)
        → IsReplyOf (replicated plain batch) (produce_call plain 1) (produced_reply 1) }
    ensures waited { (plain batch all : List ℕ) (one : Record) → IsBatch batch (one ∷ []) → IsRequest all (produce_of (negsuc 0) batch)
        → IsReplyOf (replicated plain batch) (replicated_call all 4) (produced_reply 0) }
    ensures swapped_bytes { (plain batch : List ℕ) (one : Record) (replies : List Reply) → IsBatch batch (one ∷ [])
        → IsRequest plain (produce_of (pos 1) batch) → HasReplies (replicated plain batch) (produce_call plain 0 ∷ produce_call plain 1 ∷ []) replies
        → sent replies ≢ sent (produced_reply 1 ∷ produced_reply 0 ∷ []) }
    ensures swapped_print { (plain batch : List ℕ) (one : Record) → IsBatch batch (one ∷ []) → IsRequest plain (produce_of (pos 1) batch)
        → IsPrintOf (replicated plain batch) (swapped_print plain batch) → ⊥ }
{}

/// Law: a worked account in which one call expired, one is parked and one was cut off is lawful. With a wrong count of a
/// winner it isn't.
pub fn worked_account()
    ensures lawful { (one both : List ℕ) → IsRequest one fetch_one → IsRequest both fetch_both → IsLawful (three_waits one both) }
    ensures miscounted { (one both : List ℕ) → IsLawful (record (three_waits one both) { wins = 1 ∷ [] }) → ⊥ }
{}

/// Law: worked accounts with a follower that was taken out after 30 seconds. One in which it stays out is lawful. In another it
/// comes back by a call whose pass saw the clock at 30000, and the entries are right. They aren't where the follower was taken
/// out at 29999, at which it didn't lag, or at 30001, which the clock wasn't told, or where another replica was; nor where the
/// follower fetched at 29999, before the moment that its pass had seen, or at 30001.
pub fn worked_leaves()
    ensures lawful { (plain batch : List ℕ) (one : Record) → IsBatch batch (one ∷ []) → IsRequest plain (produce_of (pos 1) batch)
        → IsLawful (left_alone plain batch) }
    ensures entries { (one : List ℕ) → HasEntries (left_and_back one (leave_at 30000) (back_at 30000)) }
    ensures left_early { (one : List ℕ) → HasEntries (left_and_back one (leave_at 29999) (back_at 30000)) → ⊥ }
    ensures left_untold { (one : List ℕ) → HasEntries (left_and_back one (leave_at 30001) (back_at 30000)) → ⊥ }
    ensures another_left { (one : List ℕ) → HasEntries (left_and_back one other_leaves (back_at 30000)) → ⊥ }
    ensures fetched_early { (one : List ℕ) → HasEntries (left_and_back one (leave_at 30000) (back_at 29999)) → ⊥ }
    ensures fetched_untold { (one : List ℕ) → HasEntries (left_and_back one (leave_at 30000) (back_at 30001)) → ⊥ }
{}

/// Law: what a worked account prints, where one thread plays a trace, where a storm runs and where links are served, the second of
/// which began first; and what is printed of a link.
pub fn worked_prints()
    ensures summary { (one both : List ℕ) → summary_of (three_waits one both) ≡ lines_of (codes "part 0 end 0 high 0 batches 0 bytes 0"
        ∷ codes "part 1 end 0 high 0 batches 0 bytes 0" ∷ codes "session 0 calls 1 replies 1 parked 0"
        ∷ codes "session 1 calls 1 replies 0 parked 1" ∷ codes "session 2 calls 1 replies 0 parked 0" ∷ codes "done" ∷ []) }
    ensures filled { summary_of filled ≡ lines_of (codes "part 0 end 1 high 1 batches 1 bytes 1"
        ∷ codes "part 1 end 0 high 0 batches 0 bytes 0" ∷ codes "done" ∷ []) }
    ensures storm { (one both : List ℕ) → storm_summary_of (three_waits one both) ≡ lines_of (codes "part 0 end 0 batches 0 bytes 0"
        ∷ codes "part 1 end 0 batches 0 bytes 0" ∷ codes "sessions 3 calls 3 replies 1 parked 1" ∷ codes "done" ∷ []) }
    ensures storm_filled { storm_summary_of filled ≡ lines_of (codes "part 0 end 1 batches 1 bytes 1"
        ∷ codes "part 1 end 0 batches 0 bytes 0" ∷ codes "sessions 0 calls 0 replies 0 parked 0" ∷ codes "done" ∷ []) }
    ensures link { (one : List ℕ) → link_line (record { number = 4; first = 0; calls = expired_call one ∷ []; end = Some Closed })
        ≡ lines_of (codes "link 4 calls 1 replies 1 closed" ∷ []) }
    ensures open_link { (one : List ℕ) → link_line (record { number = 5; first = 0; calls = parked_call one ∷ []; end = None })
        ≡ lines_of (codes "link 5 calls 1 replies 0" ∷ []) }
    ensures served { (one : List ℕ) → IsServePrint (two_links one) (lines_of (codes "link 0 calls 0 replies 0 truncated 3" ∷ codes "link 1 calls 1 replies 1 closed"
        ∷ codes "part 0 end 1 high 1 batches 1 bytes 1" ∷ codes "part 1 end 0 high 0 batches 0 bytes 0" ∷ codes "done" ∷ [])) }
    ensures ended { (both : List ℕ) → session_text (record { number = 2; first = 0; calls = cut_call both ∷ []; end = Some NoMemory }, [])
        ≡ lines_of (codes "end 2 no-memory" ∷ []) }
{}

/// Law: the worked requests have bodies.
pub fn worked_requests()
    ensures one { IsRequest (fields (request_fields fetch_one)) fetch_one }
    ensures both { IsRequest (fields (request_fields fetch_both)) fetch_both }
    ensures now { IsRequest (fields (request_fields fetch_now)) fetch_now }
    ensures leader { (batch : List ℕ) → length batch < 2 ^ 31
        → IsRequest (fields (request_fields (produce_of (pos 1) batch))) (produce_of (pos 1) batch) }
    ensures all { (batch : List ℕ) → length batch < 2 ^ 31
        → IsRequest (fields (request_fields (produce_of (negsuc 0) batch))) (produce_of (negsuc 0) batch) }
{}

/// Law: a worked account is that of the run of its lines, with the clock's pass and one tick that the command adds. Without
/// either of the two it isn't.
pub fn worked_run()
    ensures run { IsRunOf closed_lines 9092 ([] ∷ []) (1000 ∷ []) closed_run }
    ensures pass { IsRunOf closed_lines 9092 [] (1000 ∷ []) closed_run → ⊥ }
    ensures tick { IsRunOf closed_lines 9092 ([] ∷ []) [] closed_run → ⊥ }
{}

/// Law: a request has one result for each partition that it names, each of a partition that is there, and asks no log twice.
pub fn results_stand()
    ensures { (config : Configuration) (account : TheAccount) (body : List ℕ) (request : Request) (decisions : List Decision) (steps : List Step)
        → IsRequest body request → Decides config request.ask decisions → partitions_of config.topics ≤ MOST_PARTITIONS
        → AllZip (IsStep account) decisions steps → All (λ (step : Step). IsCarriable step.result) steps
        → AreResults request.ask (map (λ (step : Step). step.result) steps) }
{}
