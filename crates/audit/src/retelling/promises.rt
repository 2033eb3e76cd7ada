//! Laws of accounts from which replies are computed. Their bodies do nothing.

ghost use Rattle.std.specs.Prelude.{◌≤◌};
ghost use Rattle.std.specs.List.{AllByRecursion};
ghost use Rattle.kwire.specs.Configuration.{partitions_of};
ghost use Rattle.kwire.specs.declared.config.TheConstants.{MOST_PARTITIONS};
ghost use Rattle.audit.specs.declared.account.Account.{Account as TheAccount};
ghost use Rattle.audit.specs.Histories.{history_of};
ghost use Rattle.audit.specs.IsLawful.{IsLawful};
ghost use Rattle.audit.specs.retelling.Playable.{IsPlayable};

/// Law: the entries of each partition of a lawful account can be put into an empty log again. Each append left a batch that the
/// log had room for, each follower's fetch was a follower's and in range, and each replica that was taken out lagged.
pub fn lawful_parts_play_again()
    ensures { (account : TheAccount) → IsLawful account → partitions_of account.config.topics ≤ MOST_PARTITIONS
        → AllByRecursion (λ part. IsPlayable (history_of part)) account.parts }
{}
